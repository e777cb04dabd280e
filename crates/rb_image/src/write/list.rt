//! Lists: their length, and their items one after another.

ghost use Rattle.std.specs.Prelude.{◌≡◌, ℕ, ◌<◌, ◌^◌, List, ◌++◌, Option, length, map, OnOk};
ghost use Rattle.std.specs.List.{AllByRecursion, flat_map};
ghost use Rattle.rb_outside.specs.Puts.{Puts};
ghost use Rattle.rb_image.specs.Pieces.{list, natural, optional, text as text_bytes};
ghost use Rattle.rb_image.specs.Ranges.{Are, IsNatural, IsOptional, IsText};

use crate::write::number::{put_length, put_natural, put_optional, put_text};
use rb_base::Text;
use rb_outside::{Failed, Sink};

/// What can be an item of a list.
pub(crate) trait Spelled {
    /// What an item is without its place in memory, its bytes, and the ranges of its numbers.
    ghost Plain: { Type 0 };

    ghost plain: { Self → Self.Plain };

    ghost bytes: { Self.Plain → List ℕ };

    ghost Ranges: { Self.Plain → Type 0 };

    /// Writes the item.
    fn put<S: Sink>(&self, out: &mut S) -> Result<(), Failed>
        ensures text { Puts (bytes (plain self.now)) (S.written out.old) (S.written out.new) (S.faults out.old) (S.faults out.new) result }
        ensures ranges { OnOk result (Ranges (plain self.now)) };
}

/// Writes a list.
pub(crate) fn put_list<S: Sink, T: Spelled>(out: &mut S, items: &[T]) -> Result<(), Failed>
    ensures text { Puts (list T.bytes (map T.plain items.now)) (S.written out.old) (S.written out.new) (S.faults out.old)
        (S.faults out.new) result }
    ensures ranges { OnOk result (Are T.Ranges (map T.plain items.now)) }
{
    put_length(out, items.len())?;
    put_items(out, items)
}

fn put_items<S: Sink, T: Spelled>(out: &mut S, items: &[T]) -> Result<(), Failed>
    ensures text { Puts (flat_map T.bytes (map T.plain items.now)) (S.written out.old) (S.written out.new) (S.faults out.old)
        (S.faults out.new) result }
    ensures ranges { OnOk result (AllByRecursion T.Ranges (map T.plain items.now)) }
{
    for item in items {
        item.put(out)?;
    }
    Ok(())
}

impl Spelled for u32 {
    ghost Plain = { ℕ };

    ghost plain = { λ n. n };

    ghost bytes = { natural };

    ghost Ranges = { IsNatural };

    fn put<S: Sink>(&self, out: &mut S) -> Result<(), Failed> {
        put_natural(out, *self)
    }
}

impl Spelled for Text {
    ghost Plain = { List ℕ };

    ghost plain = { λ bytes. bytes };

    ghost bytes = { text_bytes };

    ghost Ranges = { IsText };

    fn put<S: Sink>(&self, out: &mut S) -> Result<(), Failed> {
        put_text(out, self)
    }
}

impl Spelled for Option<u32> {
    ghost Plain = { Option ℕ };

    ghost plain = { λ number. number };

    ghost bytes = { optional };

    ghost Ranges = { IsOptional };

    fn put<S: Sink>(&self, out: &mut S) -> Result<(), Failed> {
        put_optional(out, *self)
    }
}

// One item behind another.
impl<'a, 'b, A: Spelled, B: Spelled> Spelled for (&'a A, &'b B) {
    ghost Plain = { A.Plain × B.Plain };

    ghost plain = { λ two. (A.plain two.0.now, B.plain two.1.now) };

    ghost bytes = { λ two. A.bytes two.0 ++ B.bytes two.1 };

    ghost Ranges = { λ two. A.Ranges two.0 × B.Ranges two.1 };

    fn put<S: Sink>(&self, out: &mut S) -> Result<(), Failed> {
        self.0.put(out)?;
        self.1.put(out)
    }
}

impl<T: Spelled> Spelled for Vec<T> {
    ghost Plain = { List T.Plain };

    ghost plain = { λ items. map T.plain items.items };

    ghost bytes = { list T.bytes };

    ghost Ranges = { Are T.Ranges };

    fn put<S: Sink>(&self, out: &mut S) -> Result<(), Failed> {
        put_list(out, self)
    }
}
