//! Texts as they stand in a page.

ghost use Rattle.std.specs.Prelude.{◌≡◌, ◌++◌, codes};
ghost use Rattle.rb_outside.specs.Puts.{Puts};
ghost use Rattle.rb_page.specs.Escape.{escaped, escaped_byte, is_plain, reference};

use itoa::Buffer;
use rb_outside::{Failed, Sink, put_all};
use rb_trace::line::put_pieces;

/// Writes a text as it stands in a page. After `Failed` a prefix of this was written.
pub fn put_escaped<S: Sink>(out: &mut S, text: &[u8]) -> Result<(), Failed>
    ensures { Puts (escaped text.now) (S.written out.old) (S.written out.new) (S.faults out.old) (S.faults out.new) result }
{
    for byte in text {
        put_byte(out, *byte)?;
    }
    Ok(())
}

fn put_byte<S: Sink>(out: &mut S, byte: u8) -> Result<(), Failed>
    ensures { Puts (escaped_byte byte) (S.written out.old) (S.written out.new) (S.faults out.old) (S.faults out.new) result }
{
    if is_plain(byte) {
        put_all(out, &[byte])
    } else {
        put_reference(out, byte)
    }
}

/// Whether a byte stands for itself: the tab, LF and the printable ones, but for those of markup.
pub(crate) fn is_plain(byte: u8) -> bool
    ensures { result ≡ is_plain byte }
{
    match byte {
        b'&' | b'<' | b'>' => false,
        b'\t' | b'\n' => true,
        _ => b' ' <= byte && byte <= b'~',
    }
}

fn put_reference<S: Sink>(out: &mut S, byte: u8) -> Result<(), Failed>
    ensures { Puts (reference byte) (S.written out.old) (S.written out.new) (S.faults out.old) (S.faults out.new) result }
{
    let mut buffer = Buffer::new();
    put_number(out, buffer.format(byte).as_bytes())
}

fn put_number<S: Sink>(out: &mut S, digits: &[u8]) -> Result<(), Failed>
    ensures { Puts (codes "&#" ++ (digits.now ++ codes ";")) (S.written out.old) (S.written out.new) (S.faults out.old) (S.faults out.new) result }
{
    put_pieces(out, &[b"&#", digits, b";"])
}
