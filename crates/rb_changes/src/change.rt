//! The lines that tell what a turn changed, one thing each.

ghost use Rattle.std.specs.Prelude.{◌<◌, [], ◌∷◌, codes, length, map, Some, None};
ghost use Rattle.rb_outside.specs.Puts.{Puts};
ghost use Rattle.rb_changes.specs.Changes.{alternate_line, back_to, broken_line, depth_line, held_line, index_word, last_line, level_line, line_in, message_line, numbers_line, value_line};

use crate::noted::{Numbers, OpenLevel};
use itoa::Buffer;
use rb_outside::{Failed, Sink};
use rb_trace::line::put_pieces;
use rb_trace::put_line;

/// The value of a variable of a process that is no array.
pub fn write_scalar<'w, S: Sink>(
    out: &mut S,
    turn: u32,
    process: &'w [u8],
    variable: &'w [u8],
    value: i64,
) -> Result<(), Failed>
    ensures { Puts (value_line turn process.now variable.now (index_word None) value) (S.written out.old) (S.written out.new) (S.faults out.old)
        (S.faults out.new) result }
{
    let mut values = Buffer::new();
    let value = values.format(value).as_bytes();
    put_changed(out, turn, &[b"var", process, variable, b"-", value])
}

/// The value of an element of an array.
pub fn write_element<'w, S: Sink>(
    out: &mut S,
    turn: u32,
    process: &'w [u8],
    variable: &'w [u8],
    element: u32,
    value: i64,
) -> Result<(), Failed>
    ensures { Puts (value_line turn process.now variable.now (index_word (Some element)) value) (S.written out.old) (S.written out.new) (S.faults out.old)
        (S.faults out.new) result }
{
    let mut elements = Buffer::new();
    let mut values = Buffer::new();
    let element = elements.format(element).as_bytes();
    let value = values.format(value).as_bytes();
    put_changed(out, turn, &[b"var", process, variable, element, value])
}

/// How many levels a process has open.
pub fn write_depth<'w, S: Sink>(
    out: &mut S,
    turn: u32,
    process: &'w [u8],
    count: u32,
) -> Result<(), Failed>
    ensures { Puts (depth_line turn process.now count) (S.written out.old) (S.written out.new) (S.faults out.old)
        (S.faults out.new) result }
{
    let mut counts = Buffer::new();
    let count = counts.format(count).as_bytes();
    put_changed(out, turn, &[b"levels", process, count])
}

/// An open level of a process; the outermost has number 1.
pub fn write_level<'w, S: Sink>(
    out: &mut S,
    turn: u32,
    process: &'w [u8],
    number: u32,
    level: OpenLevel,
) -> Result<(), Failed>
    ensures { Puts (level_line turn process.now number level) (S.written out.old) (S.written out.new) (S.faults out.old)
        (S.faults out.new) result }
{
    let mut numbers = Buffer::new();
    let mut blocks = Buffer::new();
    let mut alternates = Buffer::new();
    let mut uses = Buffer::new();
    let mut entries = Buffer::new();
    let number = numbers.format(number).as_bytes();
    let block = blocks.format(level.block).as_bytes();
    let alternate = alternates.format(level.alternate).as_bytes();
    let used = uses.format(level.used).as_bytes();
    let entered = entries.format(level.entered).as_bytes();
    put_changed(
        out,
        turn,
        &[
            b"level",
            process,
            number,
            b"block",
            block,
            b"alternate",
            alternate,
            b"used",
            used,
            b"entered",
            entered,
        ],
    )
}

/// How many lines a process holds.
pub fn write_held<'w, S: Sink>(
    out: &mut S,
    turn: u32,
    process: &'w [u8],
    count: u32,
) -> Result<(), Failed>
    ensures { Puts (held_line turn process.now count) (S.written out.old) (S.written out.new) (S.faults out.old)
        (S.faults out.new) result }
{
    let mut counts = Buffer::new();
    let count = counts.format(count).as_bytes();
    put_changed(out, turn, &[b"held", process, count])
}

/// The line that a process holds last, and its number.
pub fn write_last_line<'w, S: Sink>(
    out: &mut S,
    turn: u32,
    process: &'w [u8],
    number: u32,
    line: &'w [u8],
) -> Result<(), Failed>
    ensures { Puts (last_line turn process.now number (Some line.now)) (S.written out.old) (S.written out.new) (S.faults out.old)
        (S.faults out.new) result }
{
    let mut numbers = Buffer::new();
    let number = numbers.format(number).as_bytes();
    put_changed(out, turn, &[b"line", process, number, line])
}

/// The recovery point to which a process went back, by the turn of its entry.
pub fn write_back<'w, S: Sink>(
    out: &mut S,
    turn: u32,
    process: &'w [u8],
    entered: u32,
) -> Result<(), Failed>
    ensures { Puts (back_to turn process.now entered) (S.written out.old) (S.written out.new) (S.faults out.old)
        (S.faults out.new) result }
{
    let mut entries = Buffer::new();
    let entered = entries.format(entered).as_bytes();
    put_changed(out, turn, &[b"back", process, b"to", entered])
}

/// In one word how a process stands that has not failed.
pub fn write_stand<'w, S: Sink>(
    out: &mut S,
    turn: u32,
    process: &'w [u8],
    word: &'w [u8],
) -> Result<(), Failed>
    ensures { Puts (line_in turn (codes "state" ∷ process.now ∷ word.now ∷ [])) (S.written out.old) (S.written out.new) (S.faults out.old)
        (S.faults out.new) result }
{
    put_changed(out, turn, &[b"state", process, word])
}

/// That a process has failed, and with which cause.
pub fn write_failure<'w, S: Sink>(
    out: &mut S,
    turn: u32,
    process: &'w [u8],
    cause: &'w [u8],
) -> Result<(), Failed>
    ensures { Puts (line_in turn (codes "state" ∷ process.now ∷ codes "failed" ∷ cause.now ∷ [])) (S.written out.old) (S.written out.new) (S.faults out.old)
        (S.faults out.new) result }
{
    put_changed(out, turn, &[b"state", process, b"failed", cause])
}

/// The numbers of a channel.
pub fn write_numbers<'w, S: Sink>(
    out: &mut S,
    turn: u32,
    channel: &'w [u8],
    numbers: Numbers,
) -> Result<(), Failed>
    ensures { Puts (numbers_line turn channel.now numbers) (S.written out.old) (S.written out.new) (S.faults out.old)
        (S.faults out.new) result }
{
    let mut sends = Buffer::new();
    let mut receipts = Buffer::new();
    let mut sights = Buffer::new();
    let mut rooms = Buffer::new();
    let sent = sends.format(numbers.sent).as_bytes();
    let taken = receipts.format(numbers.taken).as_bytes();
    let seen = sights.format(numbers.seen).as_bytes();
    let free = rooms.format(numbers.free).as_bytes();
    put_changed(
        out,
        turn,
        &[
            b"channel", channel, b"sent", sent, b"taken", taken, b"seen", seen, b"free", free,
        ],
    )
}

/// The value of a message that was sent, and its number.
pub fn write_message<'w, S: Sink>(
    out: &mut S,
    turn: u32,
    channel: &'w [u8],
    number: u64,
    value: i64,
) -> Result<(), Failed>
    ensures { Puts (message_line turn channel.now number value) (S.written out.old) (S.written out.new) (S.faults out.old)
        (S.faults out.new) result }
{
    let mut numbers = Buffer::new();
    let mut values = Buffer::new();
    let number = numbers.format(number).as_bytes();
    let value = values.format(value).as_bytes();
    put_changed(out, turn, &[b"message", channel, number, value])
}

/// The present alternate of a conversation.
pub fn write_alternate<'w, S: Sink>(
    out: &mut S,
    turn: u32,
    conversation: &'w [u8],
    alternate: u32,
) -> Result<(), Failed>
    ensures { Puts (alternate_line turn conversation.now alternate) (S.written out.old) (S.written out.new) (S.faults out.old)
        (S.faults out.new) result }
{
    let mut alternates = Buffer::new();
    let alternate = alternates.format(alternate).as_bytes();
    put_changed(
        out,
        turn,
        &[b"conversation", conversation, b"alternate", alternate],
    )
}

/// That a conversation is broken for good.
pub fn write_broken<'w, S: Sink>(
    out: &mut S,
    turn: u32,
    conversation: &'w [u8],
) -> Result<(), Failed>
    ensures { Puts (broken_line turn conversation.now) (S.written out.old) (S.written out.new) (S.faults out.old)
        (S.faults out.new) result }
{
    put_changed(out, turn, &[b"conversation", conversation, b"broken"])
}

// A line of a turn with these words, of which there is one at least.
fn put_changed<S: Sink>(out: &mut S, turn: u32, words: &[&[u8]]) -> Result<(), Failed>
    requires { 0 < length words.now }
    ensures { Puts (line_in turn (map (λ word. word.now) words.now)) (S.written out.old) (S.written out.new) (S.faults out.old)
        (S.faults out.new) result }
{
    let mut turns = Buffer::new();
    let number = turns.format(turn).as_bytes();
    put_pieces(out, &[number, b" "])?;
    put_line(out, words)
}
