//! Lines that are made of pieces, put by one call each.

ghost use Rattle.std.specs.Prelude.{◌≡◌, IfSome};
ghost use Rattle.std.specs.List.{flat_map};
ghost use Rattle.rb_outside.specs.Puts.{Puts};

use arrayvec::ArrayVec;
use rb_outside::{Failed, Sink, put_all};

/// How many bytes a line has at most: two names, a number and three words.
const ROOM: usize = 256;

/// Writes pieces one after another, by one call where a line has room for them.
pub(crate) fn put_pieces<S: Sink>(out: &mut S, pieces: &[&[u8]]) -> Result<(), Failed>
    ensures { Puts (flat_map (λ piece. piece.now) pieces.now) (S.written out.old) (S.written out.new) (S.faults out.old) (S.faults out.new) result }
{
    match joined(pieces) {
        Some(line) => put_all(out, line.as_slice()),
        None => put_each(out, pieces),
    }
}

// The pieces in one, if there is room for them.
fn joined(pieces: &[&[u8]]) -> Option<ArrayVec<u8, ROOM>>
    ensures { IfSome result (λ line. line.items ≡ flat_map (λ piece. piece.now) pieces.now) }
{
    let mut line = ArrayVec::new();
    for piece in pieces {
        line.try_extend_from_slice(piece).ok()?;
    }
    Some(line)
}

fn put_each<S: Sink>(out: &mut S, pieces: &[&[u8]]) -> Result<(), Failed>
    ensures { Puts (flat_map (λ piece. piece.now) pieces.now) (S.written out.old) (S.written out.new) (S.faults out.old) (S.faults out.new) result }
{
    for piece in pieces {
        put_all(out, piece)?;
    }
    Ok(())
}
