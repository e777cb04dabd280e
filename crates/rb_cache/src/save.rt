//! Saving the old value of a place before it is written, once in each level.

ghost use Rattle.std.specs.Prelude.{◌≡◌, ℕ, ◌+◌, ◌*◌, ◌<◌, ◌≤◌, pos, [], ◌∷◌, ◌++◌, length, reverse, slice_set, get_or, vec_len, vec_capacity};
ghost use Rattle.rb_cache.specs.Regions.{recorded};
ghost use Rattle.rb_cache.specs.Arena.{regions_of, Holds};
ghost use Rattle.rb_cache.specs.Merging.{innermost};

use crate::entry::{Entry, Mark};
use rb_base::Steps;
use rb_cell::Cells;
use std::sync::ledger::Ledger;

/// Adds an item where there is room.
pub fn put<T: Drop>(items: &mut Vec<T>, item: T)
    requires { vec_len items.old < vec_capacity items.old }
    ensures items { items.new.items ≡ items.old.items ++ item ∷ [] }
    ensures len { vec_len items.new ≡ vec_len items.old + 1 }
    ensures room { vec_capacity items.old ≤ vec_capacity items.new }
{
    items.push_reserved(item);
}

/// Saves the value of a place, as the last entry.
#[inline(never)]
fn note(stamps: &mut Vec<usize>, arena: &mut Vec<Entry>, place: u32, value: i64)
    requires room { vec_len arena.old < vec_capacity arena.old }
    requires within { place < length stamps.old.items }
    ensures arena { arena.new.items ≡ arena.old.items ++ record { place = place; value = value; earlier = get_or stamps.old.items place 0 } ∷ [] }
    ensures room { vec_capacity arena.old ≤ vec_capacity arena.new }
    ensures stamps { stamps.new.items ≡ slice_set stamps.old.items place (length arena.old.items + 1) }
    ensures stamps_room { vec_capacity stamps.new ≡ vec_capacity stamps.old }
{
    let earlier = stamps[place as usize];
    put(
        arena,
        Entry {
            place,
            value,
            earlier,
        },
    );
    stamps[place as usize] = arena.len();
}

/// Saves the value of a place in the innermost level, if the place is below its height and not saved there yet.
#[inline(always)]
pub fn save_prior<L: Ledger>(
    marks: &[Mark],
    stamps: &mut Vec<usize>,
    arena: &mut Vec<Entry>,
    cells: &Cells<L>,
    at: u32,
    steps: &mut Steps<L>,
)
    requires holds { Holds (length stamps.old.items) (reverse marks.now) stamps.old.items arena.old.items }
    requires room { length marks.now * length stamps.old.items ≤ vec_capacity arena.old }
    requires within { at < (innermost (reverse marks.now)).height → at < length stamps.old.items }
    requires at { at < length cells.now.words }
    ensures holds { Holds (length stamps.old.items) (reverse marks.now) stamps.new.items arena.new.items }
    ensures regions { regions_of (reverse marks.now) arena.new.items
        ≡ recorded at (get_or cells.now.words at (pos 0)) (regions_of (reverse marks.now) arena.old.items) }
    ensures room { vec_capacity arena.old ≤ vec_capacity arena.new }
    ensures stamps_room { vec_capacity stamps.new ≡ vec_capacity stamps.old }
    ensures ticks { steps.new ≤ steps.old + 1 }
{
    if marks.is_empty() {
        return;
    }
    let top = marks[marks.len() - 1];
    if at < top.height && stamps[at as usize] <= top.first {
        let value = cells.read(at, steps);
        note(stamps, arena, at, value);
    }
}
