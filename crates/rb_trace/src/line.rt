//! Lines of words, and bytes in pieces, written to a sink.

ghost use Rattle.std.specs.Prelude.{◌≡◌, ℕ, List, [], ◌∷◌, ◌++◌, map};
ghost use Rattle.std.specs.List.{flat_map};
ghost use Rattle.rb_outside.specs.Puts.{Puts};
ghost use Rattle.rb_world.specs.Text.{line_of};
ghost use Rattle.rb_trace.specs.Lines.{spaced};

use rb_outside::put::put_all;
use rb_outside::{Failed, Sink};

/// Writes words with one blank between them, and LF.
pub fn put_line<S: Sink>(out: &mut S, words: &[&[u8]]) -> Result<(), Failed>
    ensures { Puts (line_of (map (λ word. word.now) words.now)) (S.written out.old) (S.written out.new) (S.faults out.old) (S.faults out.new) result }
{
    match words {
        [] => put(out, b"\n"),
        [first, others @ ..] => {
            put(out, first)?;
            put_others(out, others)?;
            put(out, b"\n")
        }
    }
}

/// Writes bytes.
pub fn put<S: Sink>(out: &mut S, bytes: &[u8]) -> Result<(), Failed>
    ensures { Puts bytes.now (S.written out.old) (S.written out.new) (S.faults out.old) (S.faults out.new) result }
{
    put_all(out, bytes)
}

// Each word with a blank before it.
fn put_others<S: Sink>(out: &mut S, words: &[&[u8]]) -> Result<(), Failed>
    ensures { Puts (spaced (map (λ word. word.now) words.now)) (S.written out.old) (S.written out.new) (S.faults out.old) (S.faults out.new) result }
{
    for word in words {
        put_after(out, b" ", word)?;
    }
    Ok(())
}

// Bytes, and then others.
pub(crate) fn put_after<S: Sink>(out: &mut S, before: &[u8], bytes: &[u8]) -> Result<(), Failed>
    ensures { Puts (before.now ++ bytes.now) (S.written out.old) (S.written out.new) (S.faults out.old) (S.faults out.new) result }
{
    put(out, before)?;
    put(out, bytes)
}

/// Writes pieces one after another.
pub fn put_pieces<S: Sink>(out: &mut S, pieces: &[&[u8]]) -> Result<(), Failed>
    ensures { Puts (flat_map (λ piece. piece.now) pieces.now) (S.written out.old) (S.written out.new) (S.faults out.old) (S.faults out.new) result }
{
    for piece in pieces {
        put(out, piece)?;
    }
    Ok(())
}
