//! Numbers, texts and optional numbers.

ghost use Rattle.std.specs.Prelude.{◌≡◌, ℕ, ◌<◌, ◌^◌, List, ◌++◌, OnOk, length};
ghost use Rattle.rb_outside.specs.Puts.{Puts};
ghost use Rattle.rb_image.specs.Pieces.{natural, number, optional, text as text_bytes};
ghost use Rattle.rb_image.specs.Ranges.{IsOptional, IsText};

use rb_base::Text;
use rb_outside::{Failed, Sink};
use rb_trace::line::put;

/// Writes a number.
pub(crate) fn put_natural<S: Sink>(out: &mut S, n: u32) -> Result<(), Failed>
    ensures { Puts (natural n) (S.written out.old) (S.written out.new) (S.faults out.old) (S.faults out.new) result }
{
    put_word(out, n as u64)
}

#[tactic(auto, unfolding(crate::specs::Pieces::number))]
fn put_word<S: Sink>(out: &mut S, n: u64) -> Result<(), Failed>
    ensures { Puts (natural n) (S.written out.old) (S.written out.new) (S.faults out.old) (S.faults out.new) result }
{
    put(out, &n.to_be_bytes())
}

/// Writes a length.
pub(crate) fn put_length<S: Sink>(out: &mut S, length: usize) -> Result<(), Failed>
    ensures { Puts (natural length) (S.written out.old) (S.written out.new) (S.faults out.old) (S.faults out.new) result }
{
    put_word(out, length as u64)
}

/// Writes an optional number.
pub(crate) fn put_optional<S: Sink>(out: &mut S, number: Option<u32>) -> Result<(), Failed>
    ensures text { Puts (optional number) (S.written out.old) (S.written out.new) (S.faults out.old) (S.faults out.new) result }
    ensures ranges { IsOptional number }
{
    match number {
        None => put_natural(out, 0),
        Some(n) => put_some(out, n),
    }
}

fn put_some<S: Sink>(out: &mut S, n: u32) -> Result<(), Failed>
    ensures { Puts (natural 1 ++ natural n) (S.written out.old) (S.written out.new) (S.faults out.old) (S.faults out.new) result }
{
    put_natural(out, 1)?;
    put_natural(out, n)
}

/// Writes a text.
pub(crate) fn put_text<S: Sink>(out: &mut S, text: &Text) -> Result<(), Failed>
    ensures text { Puts (text_bytes text.now) (S.written out.old) (S.written out.new) (S.faults out.old) (S.faults out.new) result }
    ensures ranges { IsText text.now }
{
    put_bytes(out, text.as_bytes())
}

fn put_bytes<S: Sink>(out: &mut S, bytes: &[u8]) -> Result<(), Failed>
    ensures text { Puts (text_bytes bytes.now) (S.written out.old) (S.written out.new) (S.faults out.old) (S.faults out.new) result }
    ensures ranges { IsText bytes.now }
{
    put_length(out, bytes.len())?;
    put(out, bytes)
}
