//! Why the plain run of a record is stuck, in words.

ghost use Rattle.std.specs.Prelude.{◌≡◌, ◌++◌, ◌≤◌, codes, length, IfOk};
ghost use Rattle.rb_base.specs.Naming.{process_names};
ghost use Rattle.rb_sched.specs.Schedule.{lines_of};
ghost use Rattle.rb_why.specs.Stuck.{alternate_words, block_words, cause_words, has_turn, line_of_turn, name_at, sentence_about, stuck_told, stuck_words, turn_place, turn_words, wait_words};

use crate::text::word_place;
use crate::words::word_at;
use itoa::Buffer;
use rb_base::numbers::{is_number, number_value};
use rb_base::{FaultName, Kept, MOST_BYTES, Memory, Names, Place, Text};
use rb_frame::frame::frame;
use rb_frame::joined::joined;
use rb_levels::StuckCause;
use rb_sched::words::{first_line, without_comment, without_cr};
use std::alloc::Global;

/// Why the plain run of a record can't take this turn, with a mark under the line that keeps it.
pub fn stuck_reason(
    alloc: Global,
    file: &[u8],
    text: &[u8],
    names: &Names,
    kept: Kept,
    cause: StuckCause,
) -> Result<Vec<u8>, Memory>
    requires { length text.now ≤ MOST_BYTES }
    ensures { IfOk result (λ told. told.items ≡ stuck_told file.now text.now names.now kept cause) }
{
    let words = stuck_sentence(alloc, names, kept, cause)?;
    let place = turn_place(text, kept.turn);
    frame(
        alloc,
        file,
        text,
        place,
        FaultName::V4.word(),
        words.as_slice(),
    )
}

// The sentence about a turn of a program with these names.
fn stuck_sentence(
    alloc: Global,
    names: &Names,
    kept: Kept,
    cause: StuckCause,
) -> Result<Vec<u8>, Memory>
    ensures { IfOk result (λ words. words.items ≡ stuck_words names.now kept cause) }
{
    let process = process_name(names, kept.process);
    sentence_about(alloc, process, names.channels.as_slice(), kept, cause)
}

// The name of a process by its number; nothing past the end.
fn process_name(names: &Names, process: u32) -> &[u8]
    ensures { result.now ≡ name_at (process_names names.now) process }
{
    match names.processes.get(process as usize) {
        Some(process) => process.name.as_bytes(),
        None => &[],
    }
}

// The name of a channel by its number; nothing past the end.
fn channel_name(channels: &[Text], channel: usize) -> &[u8]
    ensures { result.now ≡ name_at channels.now channel }
{
    match channels.get(channel) {
        Some(name) => name.as_bytes(),
        None => &[],
    }
}

// The sentence about a turn of this process, on a program with these channels.
fn sentence_about(
    alloc: Global,
    process: &[u8],
    channels: &[Text],
    kept: Kept,
    cause: StuckCause,
) -> Result<Vec<u8>, Memory>
    ensures { IfOk result (λ words. words.items ≡ sentence_about process.now channels.now kept cause) }
{
    let turn = turn_told(alloc, process, kept)?;
    let cause = cause_told(alloc, process, channels, cause)?;
    joined(
        alloc,
        &[turn.as_slice(), b" cannot be taken: ", cause.as_slice()],
    )
}

// The turn, with its process.
fn turn_told(alloc: Global, process: &[u8], kept: Kept) -> Result<Vec<u8>, Memory>
    ensures { IfOk result (λ words. words.items ≡ turn_words process.now kept) }
{
    let mut turns = Buffer::new();
    let turn = turns.format(kept.turn).as_bytes();
    let alternate = alternate_told(alloc, kept.alternate)?;
    turn_of(alloc, turn, process, alternate.as_slice())
}

// The references of one list have one lifetime.
fn turn_of<'w>(
    alloc: Global,
    turn: &'w [u8],
    process: &'w [u8],
    alternate: &'w [u8],
) -> Result<Vec<u8>, Memory>
    ensures { IfOk result (λ words. words.items ≡
        codes "turn `" ++ (turn.now ++ (codes "` of `" ++ (process.now ++ (codes "`" ++ alternate.now))))) }
{
    joined(
        alloc,
        &[b"turn `", turn, b"` of `", process, b"`", alternate],
    )
}

// The alternate that a turn gives, if it gives one.
fn alternate_told(alloc: Global, alternate: u32) -> Result<Vec<u8>, Memory>
    ensures { IfOk result (λ words. words.items ≡ alternate_words alternate) }
{
    if alternate == 0 {
        return Ok(Vec::new(alloc));
    }
    let mut alternates = Buffer::new();
    let alternate = alternates.format(alternate).as_bytes();
    joined(alloc, &[b", alternate ", alternate, b","])
}

// Why the process can't take the turn, on a program with these channels.
fn cause_told(
    alloc: Global,
    process: &[u8],
    channels: &[Text],
    cause: StuckCause,
) -> Result<Vec<u8>, Memory>
    ensures { IfOk result (λ words. words.items ≡ cause_words process.now channels.now cause) }
{
    match cause {
        StuckCause::Ended => joined(alloc, &[b"`", process, b"` has ended before"]),
        StuckCause::AtLine => joined(
            alloc,
            &[
                b"`",
                process,
                b"` stands at its test line and waits for the other members",
            ],
        ),
        StuckCause::NothingStarts => joined(alloc, &[b"nothing starts here"]),
        StuckCause::OtherAlternate(count) => block_told(alloc, count),
        StuckCause::NoRoom(c) => wait_told(alloc, process, b"` waits for room on `", channels, c),
        StuckCause::NoMessage(c) => {
            wait_told(alloc, process, b"` waits for a message on `", channels, c)
        }
        StuckCause::TooDeep => joined(alloc, &[b"32 levels are open, which is the most"]),
        StuckCause::TestFails => joined(alloc, &[b"its acceptance test does not hold, or traps"]),
        StuckCause::Traps => joined(alloc, &[b"its statement traps"]),
    }
}

// That a process waits for what the words between say, on a channel. The references of one list have one lifetime.
fn wait_told<'w>(
    alloc: Global,
    process: &'w [u8],
    waits: &'w [u8],
    channels: &'w [Text],
    channel: usize,
) -> Result<Vec<u8>, Memory>
    ensures { IfOk result (λ words. words.items ≡ wait_words process.now waits.now channels.now channel) }
{
    let channel = channel_name(channels, channel);
    joined(alloc, &[b"`", process, waits, channel, b"`"])
}

// That a block with so many alternates starts here.
fn block_told(alloc: Global, count: usize) -> Result<Vec<u8>, Memory>
    ensures { IfOk result (λ words. words.items ≡ block_words count) }
{
    if count == 1 {
        return joined(alloc, &[b"a recovery block with 1 alternate starts here"]);
    }
    let mut counts = Buffer::new();
    let count = counts.format(count).as_bytes();
    joined(
        alloc,
        &[b"a recovery block with ", count, b" alternates starts here"],
    )
}

// The place of the first word of the line that keeps this turn.
fn turn_place(text: &[u8], turn: u32) -> Place
    requires { length text.now ≤ MOST_BYTES }
    ensures { result ≡ turn_place text.now turn }
{
    word_place(text, line_of_turn(text, turn), 0)
}

// The number of the first line that keeps this turn; 0 where none does.
fn line_of_turn(text: &[u8], turn: u32) -> u32
    requires { length text.now ≤ MOST_BYTES }
    ensures { result ≡ line_of_turn turn 0 (lines_of text.now) }
{
    let mut at = 0_u32;
    let mut rest = text;
    while !rest.is_empty() {
        let (line, after) = first_line(rest);
        at += 1;
        if has_turn(line, turn) {
            return at;
        }
        rest = after;
    }
    0
}

// Whether the first word of a line is this turn's number.
fn has_turn(line: &[u8], turn: u32) -> bool
    ensures { result ≡ has_turn turn line.now }
{
    let word = word_at(without_comment(without_cr(line)), 0);
    is_number(word) && number_value(word) == Some(u64::from(turn))
}
