//! Bytes in pieces, put together, and byte for byte changed.

ghost use Rattle.std.specs.Prelude.{◌≡◌, ◌++◌, length, IfOk};
ghost use Rattle.std.specs.List.{flat_map};
ghost use Rattle.rb_frame.specs.Frame.{shown, shown_byte, under, under_byte};

use rb_base::Memory;
use std::alloc::Global;

/// Pieces one after another.
pub fn joined(alloc: Global, pieces: &[&[u8]]) -> Result<Vec<u8>, Memory>
    ensures { IfOk result (λ bytes. bytes.items ≡ flat_map (λ piece. piece.now) pieces.now) }
{
    let mut bytes = Vec::new(alloc);
    let mut rest = pieces;
    while let [piece, after @ ..] = rest {
        bytes.extend_from_slice(piece)?;
        rest = after;
    }
    Ok(bytes)
}

/// Bytes as they are shown: printable ASCII and tabs as they are, and each other one as `?`.
pub(crate) fn shown(alloc: Global, bytes: &[u8]) -> Result<Vec<u8>, Memory>
    ensures { IfOk result (λ text. text.items ≡ shown bytes.now) }
{
    let mut text = Vec::new(alloc);
    let mut rest = bytes;
    while let [byte, after @ ..] = rest {
        text.push(shown_byte(*byte))?;
        rest = after;
    }
    Ok(text)
}

/// What stands under bytes before a mark: a tab under a tab, and else a blank.
pub(crate) fn under(alloc: Global, bytes: &[u8]) -> Result<Vec<u8>, Memory>
    ensures { IfOk result (λ text. text.items ≡ under bytes.now) }
{
    let mut text = Vec::new(alloc);
    let mut rest = bytes;
    while let [byte, after @ ..] = rest {
        text.push(under_byte(*byte))?;
        rest = after;
    }
    Ok(text)
}

fn shown_byte(byte: u8) -> u8
    ensures { result ≡ shown_byte byte }
{
    if (32..=126).contains(&byte) || byte == b'\t' {
        byte
    } else {
        b'?'
    }
}

fn under_byte(byte: u8) -> u8
    ensures { result ≡ under_byte byte }
{
    if byte == b'\t' { b'\t' } else { b' ' }
}
