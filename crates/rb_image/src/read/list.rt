//! Lists: their length, and their items one after another.

ghost use Rattle.std.specs.Prelude.{◌≡◌, ℕ, ◌<◌, ◌^◌, List, Option, map, vec_len, IfOk};
ghost use Rattle.std.proofs.Common.{lit≤};
ghost use Rattle.rb_image.specs.Reading.{Gives, Reading, both, few_at, items_at, list_at, natural_at, optional_at, text_at};

use crate::FormRefusal;
use crate::read::number::{read_natural, read_optional, read_text, read_word};
use rb_base::Text;
use std::alloc::Global;

/// What can be an item of a list.
pub(crate) trait Item: Sized + Drop {
    /// What an item is without its place in memory.
    ghost Plain: { Type 0 };

    ghost plain: { Self → Self.Plain };

    ghost reading: { Reading Self.Plain };

    /// The item at the front.
    fn read(alloc: Global, bytes: &[u8]) -> Result<(Self, &[u8]), FormRefusal>
        ensures { Gives (λ x. (plain x.0, x.1.now)) result (reading bytes.now) };
}

/// An item of lists.
pub(crate) trait Listed: Item {
    /// The fewest bytes of one.
    const LEAST: usize;

    ghost LEAST: { ℕ };

    ghost some: { 0 < LEAST };
}

/// A list of items that have so many bytes each, at least. Memory is taken only for as many as the bytes can hold.
#[tactic(auto, unfolding(crate::specs::Reading::list_at))]
pub(crate) fn read_list<T: Item>(
    alloc: Global,
    bytes: &[u8],
    least: usize,
) -> Result<(Vec<T>, &[u8]), FormRefusal>
    requires { 0 < least }
    ensures { Gives (λ x. (map T.plain x.0.items, x.1.now)) result (list_at least T.reading bytes.now) }
{
    let (length, rest) = read_word(bytes)?;
    let length = length as usize;
    if rest.len() / least < length {
        return Err(FormRefusal::Form);
    }
    read_items(alloc, rest, length)
}

fn read_items<T: Item>(
    alloc: Global,
    bytes: &[u8],
    length: usize,
) -> Result<(Vec<T>, &[u8]), FormRefusal>
    ensures { Gives (λ x. (map T.plain x.0.items, x.1.now)) result (items_at T.reading length bytes.now) }
{
    let mut items = Vec::with_capacity(alloc, length)?;
    let mut rest = bytes;
    'items: for at in 0..length {
        let (item, after) = T::read(alloc, rest)?;
        items.push(item)?;
        rest = after;
    }
    Ok((items, rest))
}

/// A list of fewer than 2^32 items, with so many bytes each at least.
#[tactic(auto, unfolding(crate::specs::Reading::few_at))]
pub(crate) fn read_few<T: Item>(
    alloc: Global,
    bytes: &[u8],
    least: usize,
) -> Result<(Vec<T>, &[u8]), FormRefusal>
    requires { 0 < least }
    ensures items { Gives (λ x. (map T.plain x.0.items, x.1.now)) result (few_at least T.reading bytes.now) }
    ensures few { IfOk result (λ x. vec_len x.0 < 2 ^ 32) }
{
    let (items, rest) = read_list(alloc, bytes, least)?;
    if items.len() > u32::MAX as usize {
        return Err(FormRefusal::Form);
    }
    Ok((items, rest))
}

impl Item for u32 {
    ghost Plain = { ℕ };

    ghost plain = { λ n. n };

    ghost reading = { natural_at };

    fn read(_alloc: Global, bytes: &[u8]) -> Result<(u32, &[u8]), FormRefusal> {
        read_natural(bytes)
    }
}

impl Item for Text {
    ghost Plain = { List ℕ };

    ghost plain = { λ bytes. bytes };

    ghost reading = { text_at };

    fn read(alloc: Global, bytes: &[u8]) -> Result<(Text, &[u8]), FormRefusal> {
        read_text(alloc, bytes)
    }
}

impl Item for Option<u32> {
    ghost Plain = { Option ℕ };

    ghost plain = { λ number. number };

    ghost reading = { optional_at };

    fn read(_alloc: Global, bytes: &[u8]) -> Result<(Option<u32>, &[u8]), FormRefusal> {
        read_optional(bytes)
    }
}

impl Listed for u32 {
    const LEAST: usize = 8;

    ghost LEAST = { 8 };

    ghost some = { lit≤ tt };
}

impl Listed for Text {
    const LEAST: usize = 8;

    ghost LEAST = { 8 };

    ghost some = { lit≤ tt };
}

// One item behind another.
impl<A: Item, B: Item> Item for (A, B) {
    ghost Plain = { A.Plain × B.Plain };

    ghost plain = { λ two. (A.plain two.0, B.plain two.1) };

    ghost reading = { both A.reading B.reading };

    fn read(alloc: Global, bytes: &[u8]) -> Result<((A, B), &[u8]), FormRefusal> {
        let (first, rest) = A::read(alloc, bytes)?;
        let (second, rest) = B::read(alloc, rest)?;
        Ok(((first, second), rest))
    }
}

impl<T: Listed> Item for Vec<T> {
    ghost Plain = { List T.Plain };

    ghost plain = { λ items. map T.plain items.items };

    ghost reading = { list_at T.LEAST T.reading };

    fn read(alloc: Global, bytes: &[u8]) -> Result<(Vec<T>, &[u8]), FormRefusal> {
        read_list(alloc, bytes, T::LEAST)
    }
}

/// A list of fewer than 2^32 texts.
pub(crate) fn read_few_texts(alloc: Global, bytes: &[u8]) -> Result<(Vec<Text>, &[u8]), FormRefusal>
    ensures texts { Gives (λ x. (x.0.items, x.1.now)) result (few_at 8 text_at bytes.now) }
    ensures few { IfOk result (λ x. vec_len x.0 < 2 ^ 32) }
{
    read_few(alloc, bytes, 8)
}
