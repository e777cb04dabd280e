//! The line of a turn: whose it is, where in the text stood what was next, and what came of it.

ghost use Rattle.std.specs.Prelude.{◌<◌, [], ◌∷◌, ◌++◌, codes, decimal, length, map, Some};
ghost use Rattle.rb_outside.specs.Puts.{Puts};
ghost use Rattle.rb_trace.specs.Naming.{naming};
ghost use Rattle.rb_changes.specs.Changes.{line_in};
ghost use Rattle.rb_picture.specs.declared.asked.Asked.TheVariants.{Line};
ghost use Rattle.rb_picture.specs.Turns.{channel_word, place_word, took_words, turn_line, waiting_words};

use crate::asked::Asked;
use crate::head::{name_at, process_at};
use itoa::Buffer;
use rb_base::{Names, Place, TurnKind};
use rb_outside::{Failed, Sink};
use rb_trace::line::put_pieces;
use rb_trace::put_line;

/// Writes the line of turn number `number` of process p.
pub fn write_turn<S: Sink>(
    out: &mut S,
    names: &Names,
    number: u32,
    p: u32,
    place: Option<Place>,
    kind: TurnKind,
    asked: Asked,
) -> Result<(), Failed>
    ensures { Puts (turn_line (naming names.now) number p place kind asked) (S.written out.old) (S.written out.new)
        (S.faults out.old) (S.faults out.new) result }
{
    let process = process_at(names, p);
    match kind {
        TurnKind::Idle => put_turn(out, number, process, place, &[b"idle"]),
        TurnKind::Undone => put_turn(out, number, process, place, &[b"undone"]),
        TurnKind::Wait => write_wait(out, names, number, process, place, asked),
        TurnKind::Took => write_took(out, names, number, process, place, asked),
    }
}

fn write_wait<'w, S: Sink>(
    out: &mut S,
    names: &'w Names,
    number: u32,
    process: &'w [u8],
    place: Option<Place>,
    asked: Asked,
) -> Result<(), Failed>
    ensures { Puts (line_in number (codes "turn" ∷ process.now ∷ place_word place ∷ codes "waits" ∷ waiting_words (naming names.now) asked))
        (S.written out.old) (S.written out.new) (S.faults out.old) (S.faults out.new) result }
{
    match asked {
        Asked::Line(conversation) => {
            write_at_line(out, names, number, process, place, conversation)
        }
        Asked::Room(c) => {
            let channel = name_at(&names.channels, c as usize);
            put_turn(
                out,
                number,
                process,
                place,
                &[b"waits", b"for", b"room", channel],
            )
        }
        Asked::Message(c) => {
            let channel = name_at(&names.channels, c as usize);
            put_turn(
                out,
                number,
                process,
                place,
                &[b"waits", b"for", b"message", channel],
            )
        }
        _ => put_turn(out, number, process, place, &[b"waits"]),
    }
}

fn write_at_line<'w, S: Sink>(
    out: &mut S,
    names: &'w Names,
    number: u32,
    process: &'w [u8],
    place: Option<Place>,
    conversation: Option<u32>,
) -> Result<(), Failed>
    ensures { Puts (line_in number (codes "turn" ∷ process.now ∷ place_word place ∷ codes "waits" ∷ waiting_words (naming names.now) (Line conversation)))
        (S.written out.old) (S.written out.new) (S.faults out.old) (S.faults out.new) result }
{
    match conversation {
        None => put_turn(out, number, process, place, &[b"waits", b"at", b"line"]),
        Some(d) => {
            let name = name_at(&names.conversations, d as usize);
            put_turn(
                out,
                number,
                process,
                place,
                &[b"waits", b"at", b"line", name],
            )
        }
    }
}

fn write_took<'w, S: Sink>(
    out: &mut S,
    names: &'w Names,
    number: u32,
    process: &'w [u8],
    place: Option<Place>,
    asked: Asked,
) -> Result<(), Failed>
    ensures { Puts (line_in number (codes "turn" ∷ process.now ∷ place_word place ∷ codes "took" ∷ took_words (naming names.now) asked))
        (S.written out.old) (S.written out.new) (S.faults out.old) (S.faults out.new) result }
{
    match asked {
        Asked::Entry(block) => write_entry(out, number, process, place, block),
        Asked::Start(block, alternate) => {
            write_start(out, number, process, place, block, alternate)
        }
        Asked::Room(c) => {
            let channel = name_at(&names.channels, c as usize);
            put_turn(out, number, process, place, &[b"took", b"send", channel])
        }
        Asked::Message(c) => write_receipt(out, names, number, process, place, c),
        Asked::Maybe(c) => write_receipt(out, names, number, process, place, c),
        _ => put_turn(out, number, process, place, &[b"took", b"step"]),
    }
}

fn write_receipt<'w, S: Sink>(
    out: &mut S,
    names: &'w Names,
    number: u32,
    process: &'w [u8],
    place: Option<Place>,
    c: u32,
) -> Result<(), Failed>
    ensures { Puts (line_in number (codes "turn" ∷ process.now ∷ place_word place ∷ codes "took" ∷ codes "receive" ∷ channel_word (naming names.now) c ∷ []))
        (S.written out.old) (S.written out.new) (S.faults out.old) (S.faults out.new) result }
{
    let channel = name_at(&names.channels, c as usize);
    put_turn(out, number, process, place, &[b"took", b"receive", channel])
}

fn write_entry<'w, S: Sink>(
    out: &mut S,
    number: u32,
    process: &'w [u8],
    place: Option<Place>,
    block: u32,
) -> Result<(), Failed>
    ensures { Puts (line_in number (codes "turn" ∷ process.now ∷ place_word place ∷ codes "took" ∷ codes "enter" ∷ decimal block ∷ []))
        (S.written out.old) (S.written out.new) (S.faults out.old) (S.faults out.new) result }
{
    let mut blocks = Buffer::new();
    let block = blocks.format(block).as_bytes();
    put_turn(out, number, process, place, &[b"took", b"enter", block])
}

fn write_start<'w, S: Sink>(
    out: &mut S,
    number: u32,
    process: &'w [u8],
    place: Option<Place>,
    block: u32,
    alternate: u32,
) -> Result<(), Failed>
    ensures { Puts (line_in number (codes "turn" ∷ process.now ∷ place_word place ∷ codes "took" ∷ codes "start" ∷ decimal block ∷ decimal alternate ∷ []))
        (S.written out.old) (S.written out.new) (S.faults out.old) (S.faults out.new) result }
{
    let mut blocks = Buffer::new();
    let mut alternates = Buffer::new();
    let block = blocks.format(block).as_bytes();
    let alternate = alternates.format(alternate).as_bytes();
    put_turn(
        out,
        number,
        process,
        place,
        &[b"took", b"start", block, alternate],
    )
}

// The line of a turn that ends in these words, of which there is one at least.
fn put_turn<S: Sink>(
    out: &mut S,
    number: u32,
    process: &[u8],
    place: Option<Place>,
    words: &[&[u8]],
) -> Result<(), Failed>
    requires { 0 < length words.now }
    ensures { Puts (line_in number (codes "turn" ∷ process.now ∷ place_word place ∷ map (λ word. word.now) words.now))
        (S.written out.old) (S.written out.new) (S.faults out.old) (S.faults out.new) result }
{
    put_front(out, number, process, place)?;
    put_line(out, words)
}

// The same up to these words.
fn put_front<'w, S: Sink>(
    out: &mut S,
    number: u32,
    process: &'w [u8],
    place: Option<Place>,
) -> Result<(), Failed>
    ensures { Puts (decimal number ++ (codes " turn " ++ (process.now ++ 32 ∷ (place_word place ++ 32 ∷ []))))
        (S.written out.old) (S.written out.new) (S.faults out.old) (S.faults out.new) result }
{
    let mut numbers = Buffer::new();
    let number = numbers.format(number).as_bytes();
    match place {
        None => put_pieces(out, &[number, b" turn ", process, b" - "]),
        Some(place) => put_placed(out, number, process, place),
    }
}

fn put_placed<'w, S: Sink>(
    out: &mut S,
    number: &'w [u8],
    process: &'w [u8],
    place: Place,
) -> Result<(), Failed>
    ensures { Puts (number.now ++ (codes " turn " ++ (process.now ++ 32 ∷ (place_word (Some place) ++ 32 ∷ []))))
        (S.written out.old) (S.written out.new) (S.faults out.old) (S.faults out.new) result }
{
    let mut lines = Buffer::new();
    let mut columns = Buffer::new();
    let line = lines.format(place.line).as_bytes();
    let column = columns.format(place.column).as_bytes();
    put_pieces(
        out,
        &[number, b" turn ", process, b" ", line, b":", column, b" "],
    )
}
