//! Pieces that a text is put together from: bytes, and numbers in decimal.

ghost use Rattle.std.specs.Prelude.{◌≡◌, ◌++◌, OnOk, decimal};
ghost use Rattle.std.specs.List.{flat_map};
ghost use Rattle.rb_make.specs.Pieces.{piece_bytes};

use itoa::Buffer;
use rb_base::text::Memory;

/// A piece of a text.
#[derive(Clone, Copy)]
pub(crate) enum Piece<'a> {
    Bytes(&'a [u8]),
    Number(u64),
}

/// Puts a piece at the end of a text.
fn push_piece(text: &mut Vec<u8>, piece: Piece<'_>) -> Result<(), Memory>
    ensures { OnOk result (text.new.items ≡ text.old.items ++ piece_bytes piece.entry) }
{
    match piece {
        Piece::Bytes(bytes) => text.extend_from_slice(bytes)?,
        Piece::Number(number) => {
            let mut buffer = Buffer::new();
            text.extend_from_slice(buffer.format(number).as_bytes())?;
        }
    }
    Ok(())
}

/// Puts pieces at the end of a text, in their order.
pub(crate) fn push(text: &mut Vec<u8>, pieces: &[Piece<'_>]) -> Result<(), Memory>
    ensures { OnOk result (text.new.items ≡ text.old.items ++ flat_map piece_bytes pieces.now) }
{
    for piece in pieces {
        push_piece(text, *piece)?;
    }
    Ok(())
}
