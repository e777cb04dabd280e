//! Why a text is refused, as a value.
ghost use Rattle.std.specs.Prelude.{◌≡◌, ◌++◌, codes};
ghost use Rattle.rb_outside.specs.Puts.{Puts};
ghost use Rattle.rb_hall.specs.Judgement.{line_of, missing_line, source_line, stuck_line, text_line};

use itoa::Buffer;
use rb_base::{SourceFault, TextFault};
use rb_outside::{Failed, Sink, put_all};
use rb_trace::line::put_pieces;

/// A fault of a text, at its place.
#[derive(Clone, Copy)]
pub enum Fault {
    /// A fault of a source.
    Source(SourceFault),
    /// A fault of a line of another text.
    Text(TextFault),
    /// A record whose plain run is stuck at this turn.
    Stuck(u32),
    /// Bytes that are no image.
    NoImage,
    /// An image of what may not be run.
    Unsound,
    /// The text is longer than its file may be.
    Long,
    /// Words ask for the outcome of this number, and the program has none.
    NoOutcome(u64),
}

impl Fault {
    /// Writes the line of the refusal.
    pub fn put_line<S: Sink>(self, out: &mut S) -> Result<(), Failed>
        ensures { Puts (line_of self) (S.written out.old) (S.written out.new) (S.faults out.old) (S.faults out.new) result }
    {
        match self {
            Fault::Source(fault) => put_source(out, fault),
            Fault::Text(fault) => put_text(out, fault),
            Fault::Stuck(turn) => put_stuck(out, turn),
            Fault::NoImage => put_all(out, b"refused I1\n"),
            Fault::Unsound => put_all(out, b"refused I2\n"),
            Fault::Long => put_all(out, b"refused L0\n"),
            Fault::NoOutcome(number) => put_missing(out, number),
        }
    }
}

fn put_source<S: Sink>(out: &mut S, fault: SourceFault) -> Result<(), Failed>
    ensures { Puts (source_line fault) (S.written out.old) (S.written out.new) (S.faults out.old) (S.faults out.new) result }
{
    let mut lines = Buffer::new();
    let mut columns = Buffer::new();
    let line = lines.format(fault.place.line).as_bytes();
    let column = columns.format(fault.place.column).as_bytes();
    put_place(out, fault.name.word(), line, column)
}

// The references have one lifetime.
fn put_place<'w, S: Sink>(
    out: &mut S,
    name: &'w [u8],
    line: &'w [u8],
    column: &'w [u8],
) -> Result<(), Failed>
    ensures { Puts
        (codes "refused " ++ (name.now ++ (codes " at " ++ (line.now ++ (codes ":" ++ (column.now ++ codes "\n"))))))
        (S.written out.old) (S.written out.new) (S.faults out.old) (S.faults out.new) result }
{
    put_pieces(
        out,
        &[b"refused ", name, b" at ", line, b":", column, b"\n"],
    )
}

fn put_text<S: Sink>(out: &mut S, fault: TextFault) -> Result<(), Failed>
    ensures { Puts (text_line fault) (S.written out.old) (S.written out.new) (S.faults out.old) (S.faults out.new) result }
{
    let mut lines = Buffer::new();
    put_at(out, fault.name.word(), lines.format(fault.at).as_bytes())
}

fn put_at<'w, S: Sink>(out: &mut S, name: &'w [u8], line: &'w [u8]) -> Result<(), Failed>
    ensures { Puts (codes "refused " ++ (name.now ++ (codes " at " ++ (line.now ++ codes "\n")))) (S.written out.old)
        (S.written out.new) (S.faults out.old) (S.faults out.new) result }
{
    put_pieces(out, &[b"refused ", name, b" at ", line, b"\n"])
}

fn put_stuck<S: Sink>(out: &mut S, turn: u32) -> Result<(), Failed>
    ensures { Puts (stuck_line turn) (S.written out.old) (S.written out.new) (S.faults out.old) (S.faults out.new) result }
{
    let mut turns = Buffer::new();
    put_turn(out, turns.format(turn).as_bytes())
}

fn put_turn<S: Sink>(out: &mut S, turn: &[u8]) -> Result<(), Failed>
    ensures { Puts (codes "refused V4 at " ++ (turn.now ++ codes "\n")) (S.written out.old) (S.written out.new)
        (S.faults out.old) (S.faults out.new) result }
{
    put_pieces(out, &[b"refused V4 at ", turn, b"\n"])
}

fn put_missing<S: Sink>(out: &mut S, number: u64) -> Result<(), Failed>
    ensures { Puts (missing_line number) (S.written out.old) (S.written out.new) (S.faults out.old) (S.faults out.new) result }
{
    let mut digits = Buffer::new();
    put_number(out, digits.format(number).as_bytes())
}

fn put_number<S: Sink>(out: &mut S, number: &[u8]) -> Result<(), Failed>
    ensures { Puts (codes "no outcome " ++ (number.now ++ codes "\n")) (S.written out.old) (S.written out.new)
        (S.faults out.old) (S.faults out.new) result }
{
    put_pieces(out, &[b"no outcome ", number, b"\n"])
}
