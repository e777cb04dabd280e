//! What a line of a session asks for, or the line's fault.

ghost use Rattle.std.specs.Prelude.{◌≡◌, ◌≤◌, ◌^◌, ◌<◌, MatchResult};
ghost use Rattle.rb_base.specs.Bytes.{digits_value};
ghost use Rattle.rb_base.specs.Naming.{process_names};
ghost use Rattle.rb_script.specs.Script.{counted, line_read, order_by, order_of_words, position_after, process_named};
ghost use Rattle.rb_sched.specs.Schedule.{words_of};

use rb_base::bytes::is_name;
use rb_base::numbers::{is_number, number_value};
use rb_base::{FaultName, Names};
use rb_sched::words::{next_word, without_comment, without_cr};

/// How many turns one line may go forth or back.
pub const MOST_STEPS: u32 = 1_000_000;

/// What a line asks for: so many turns forth, so many turns back, or to show a process.
#[derive(Clone, Copy)]
pub enum Order {
    Forth(u32),
    Back(u32),
    Show(u32),
}

/// What a line asks for and where it leads, from a position among so many turns, or its fault with the least number. An empty line asks
/// for nothing.
pub(crate) fn read_line(
    line: &[u8],
    names: &Names,
    turns: u32,
    position: u32,
) -> Result<(Option<Order>, u32), FaultName>
    ensures { result ≡ line_read (process_names names.now) turns position line.now }
{
    match line_order(line, names)? {
        None => Ok((None, position)),
        Some(order) => match position_after(turns, position, order) {
            None => Err(FaultName::B3),
            Some(later) => Ok((Some(order), later)),
        },
    }
}

// The position that an order leads to, unless that is past the last turn or before the first.
fn position_after(turns: u32, position: u32, order: Order) -> Option<u32>
    ensures { result ≡ position_after turns position order }
{
    match order {
        Order::Forth(n) => position.checked_add(n).filter(|later| *later <= turns),
        Order::Back(n) => position.checked_sub(n),
        Order::Show(_) => Some(position),
    }
}

fn line_order(line: &[u8], names: &Names) -> Result<Option<Order>, FaultName>
    ensures { result ≡ order_of_words (process_names names.now) (words_of line.now) }
{
    let Some((verb, rest)) = next_word(without_comment(without_cr(line))) else {
        return Ok(None);
    };
    let Some((word, rest)) = next_word(rest) else {
        return Err(FaultName::B1);
    };
    if next_word(rest).is_some() {
        return Err(FaultName::B1);
    }
    order_by(verb, word, names)
}

fn order_by(verb: &[u8], word: &[u8], names: &Names) -> Result<Option<Order>, FaultName>
    ensures { result ≡ order_by (process_names names.now) verb.now word.now }
{
    let order = if b"step".as_slice() == verb {
        Order::Forth(counted(word)?)
    } else if b"back".as_slice() == verb {
        Order::Back(counted(word)?)
    } else if b"show".as_slice() == verb {
        Order::Show(process_named(word, names)?)
    } else {
        return Err(FaultName::B1);
    };
    Ok(Some(order))
}

fn counted(word: &[u8]) -> Result<u32, FaultName>
    ensures { result ≡ counted word.now }
{
    if !is_number(word) {
        return Err(FaultName::B1);
    }
    match number_value(word) {
        Some(count) if count > 0 && count <= u64::from(MOST_STEPS) => Ok(count as u32),
        _ => Err(FaultName::B1),
    }
}

fn process_named(word: &[u8], names: &Names) -> Result<u32, FaultName>
    ensures { result ≡ process_named (process_names names.now) word.now }
{
    if !is_name(word) {
        return Err(FaultName::B1);
    }
    names.process(word).ok_or(FaultName::B2)
}
