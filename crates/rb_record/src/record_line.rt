//! A line of a record: the turn that it keeps, or its fault.

ghost use Rattle.std.specs.Prelude.{◌≡◌, [], Ok, Err, MatchResult, option_map};
ghost use Rattle.rb_base.specs.Naming.{process_names};
ghost use Rattle.rb_sched.specs.Schedule.{words_from, words_of};
ghost use Rattle.rb_record.specs.Record.{line_of_words};
ghost use Rattle.rb_record.specs.Recorded.{alternate_in, counted};

use rb_base::bytes::is_name;
use rb_base::numbers::{is_number, number_value};
use rb_base::{FaultName, Kept, MOST_TURNS, Names};
use rb_sched::words::{next_word, without_comment, without_cr};

/// The number of a word, where it is one from 1 to the greatest that turns and alternates may have.
fn counted(word: &[u8]) -> Option<u32>
    ensures { result ≡ counted word.now }
{
    match number_value(word) {
        Some(number) if is_number(word) && number > 0 && number <= u64::from(MOST_TURNS) => {
            Some(number as u32)
        }
        _ => None,
    }
}

/// The alternate behind a turn and its process, 0 where the line has no further word.
fn alternate_in(rest: &[u8]) -> Option<u32>
    ensures { result ≡ alternate_in (words_from [] rest.now) }
{
    let Some((word, rest)) = next_word(rest) else {
        return Some(0);
    };
    if next_word(rest).is_some() {
        return None;
    }
    counted(word)
}

/// The turn that a line keeps, where the turn before it has this number, or the line's fault with the
/// least number.
pub(crate) fn line_turn(line: &[u8], before: u32, names: &Names) -> Result<Option<Kept>, FaultName>
    ensures { let answer = line_of_words (process_names names.now) before (words_of line.now) in
        MatchResult result
        (λ kept. answer ≡ Ok kept)
        (λ name. answer ≡ Err name) }
{
    let Some((turn, rest)) = next_word(without_comment(without_cr(line))) else {
        return Ok(None);
    };
    let Some((name, rest)) = next_word(rest) else {
        return Err(FaultName::V1);
    };
    let turn = counted(turn).ok_or(FaultName::V1)?;
    let alternate = alternate_in(rest).ok_or(FaultName::V1)?;
    if !is_name(name) {
        return Err(FaultName::V1);
    }
    let process = names.process(name).ok_or(FaultName::V2)?;
    if turn <= before {
        return Err(FaultName::V3);
    }
    Ok(Some(Kept {
        turn,
        process,
        alternate,
    }))
}
