//! Sentences about bytes that no token has, and about texts that do not end.

ghost use Rattle.std.specs.Prelude.{◌≡◌, ◌++◌, ◌∷◌, codes, cond, decimal, nat_le, IfOk};
ghost use Rattle.rb_base.specs.declared.fault.FaultName.TheVariants.{X1};
ghost use Rattle.rb_why.specs.Phrases.{sentence};
ghost use Rattle.rb_why.specs.Bytes.{byte_words, carriage_return_words, from_place, front_byte_words, has_cr, has_order_mark, line_from, open_words, order_mark_words};

use crate::phrases::{around, sentence};
use itoa::Buffer;
use rb_base::{FaultName, Memory, Place};
use rb_frame::joined::joined;
use rb_frame::lines::{before, line_at};
use rb_frame::places::is_place;
use rb_sched::words::without_cr;
use std::alloc::Global;

/// The place of the first byte of a text.
const FIRST_PLACE: Place = Place { line: 1, column: 1 };

/// Whether a text begins with a byte order mark.
pub(crate) fn has_order_mark(text: &[u8]) -> bool
    ensures { result ≡ has_order_mark text.now }
{
    &text[..text.len().min(3)] == [0xEF_u8, 0xBB, 0xBF].as_slice()
}

/// That a byte order mark stands at the front of a text.
pub(crate) fn order_mark_sentence(alloc: Global) -> Result<Vec<u8>, Memory>
    ensures { IfOk result (λ words. words.items ≡ order_mark_words) }
{
    joined(
        alloc,
        &[b"a byte order mark stands at the front: save the file as plain ASCII without one"],
    )
}

/// That a carriage return stands in the middle of a line.
pub(crate) fn carriage_return_sentence(alloc: Global) -> Result<Vec<u8>, Memory>
    ensures { IfOk result (λ words. words.items ≡ carriage_return_words) }
{
    joined(
        alloc,
        &[b"a carriage return stands in the middle of this line"],
    )
}

/// Whether bytes have a CR.
pub(crate) fn has_cr(bytes: &[u8]) -> bool
    ensures { result ≡ has_cr bytes.now }
{
    bytes.contains(&b'\r')
}

/// The source from a place on.
pub(crate) fn from_place(source: &[u8], place: Place) -> &[u8]
    ensures { result.now ≡ from_place source.now place }
{
    &source[before(source, place).len()..]
}

// What stands of its line from a place on, without the CR that may end the line.
fn line_from(source: &[u8], place: Place) -> &[u8]
    ensures { result.now ≡ line_from source.now place }
{
    without_cr(line_at(from_place(source, place), 1))
}

/// That a byte can't stand at this place of a source.
pub(crate) fn byte_sentence(alloc: Global, source: &[u8], place: Place) -> Result<Vec<u8>, Memory>
    ensures { IfOk result (λ words. words.items ≡ byte_words source.now place) }
{
    if is_place(place, FIRST_PLACE) && has_order_mark(source) {
        order_mark_sentence(alloc)
    } else {
        front_byte_sentence(alloc, from_place(source, place))
    }
}

fn front_byte_sentence(alloc: Global, rest: &[u8]) -> Result<Vec<u8>, Memory>
    ensures { IfOk result (λ words. words.items ≡ front_byte_words rest.now) }
{
    let Some(byte) = rest.first() else {
        return sentence(alloc, FaultName::X1, b"");
    };
    match *byte {
        b':' => joined(alloc, &[b"a `:` has no `=` behind it"]),
        b'\t' => joined(alloc, &[b"a tab stands in this text: write blanks"]),
        b' '..=b'~' => mark_sentence(alloc, *byte),
        _ => other_byte_sentence(alloc, *byte),
    }
}

// That a byte of printable ASCII begins no token.
fn mark_sentence(alloc: Global, byte: u8) -> Result<Vec<u8>, Memory>
    ensures { IfOk result (λ words. words.items ≡ codes "`" ++ (byte ∷ codes "` begins no token")) }
{
    let mark = [byte];
    around(alloc, b"`", &mark, b"` begins no token")
}

// That a byte is no ASCII, or none that stands in a source.
fn other_byte_sentence(alloc: Global, byte: u8) -> Result<Vec<u8>, Memory>
    ensures { IfOk result (λ words. words.items ≡ cond (nat_le 128 byte)
        (codes "the byte " ++ (decimal byte ++ codes " is no ASCII, and a source has no other bytes")) (sentence X1 (decimal byte))) }
{
    let mut digits = Buffer::new();
    let number = digits.format(byte).as_bytes();
    if byte >= 128 {
        around(
            alloc,
            b"the byte ",
            number,
            b" is no ASCII, and a source has no other bytes",
        )
    } else {
        sentence(alloc, FaultName::X1, number)
    }
}

/// That the text whose opening quote stands at this place has no closing quote on its line.
pub(crate) fn open_sentence(alloc: Global, source: &[u8], place: Place) -> Result<Vec<u8>, Memory>
    ensures { IfOk result (λ words. words.items ≡ open_words source.now place) }
{
    if has_cr(line_from(source, place)) {
        joined(
            alloc,
            &[b"a carriage return stands in this text before its closing quote"],
        )
    } else {
        sentence(alloc, FaultName::X2, b"")
    }
}
