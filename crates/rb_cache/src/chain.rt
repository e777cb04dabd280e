//! Finding the first value that a level saved of a place, along the entries of that place.

ghost use Rattle.std.specs.Prelude.{◌≡◌, ℕ, ◌<◌, ◌≤◌, length, map, take, drop, get_or};
ghost use Rattle.rb_cache.specs.declared.entry.Entry.{Entry};
ghost use Rattle.rb_cache.specs.Arena.{saved_of, last_of};
ghost use Rattle.rb_cache.specs.Chains.{first_saved};

use crate::entry::Entry;

/// The stamp of a place, or 0 where there is none.
pub fn stamp_at(stamps: &[usize], at: u32) -> usize
    ensures { result ≡ get_or stamps.now at 0 }
{
    match stamps.get(at as usize) {
        Some(stamp) => *stamp,
        None => 0,
    }
}

/// The first value that the entries from `first` on saved of a place, found by following its entries from number `last`
/// back: at most one in each level.
pub fn first_value(arena: &[Entry], first: usize, last: usize, at: u32) -> Option<i64>
    requires before { (i : ℕ) (d : Entry) → i < length arena.now
        → (get_or arena.now i d).earlier ≡ last_of (take i arena.now) (get_or arena.now i d).place }
    requires last { last ≡ last_of arena.now at }
    ensures { result ≡ first_saved at (map saved_of (drop first arena.now)) }
{
    let mut found = None;
    let mut stamp = last;
    while stamp > first {
        let entry = arena[stamp - 1];
        found = Some(entry.value);
        stamp = entry.earlier;
    }
    found
}
