//! Putting saved values back, the last first.

ghost use Rattle.std.specs.Prelude.{◌≡◌, ℕ, ◌+◌, ◌-◌, ◌<◌, ◌≤◌, length, map, take, drop, vec_capacity};
ghost use Rattle.std.specs.List.{AllByRecursion};
ghost use Rattle.rb_cache.specs.Undo.{put_back};
ghost use Rattle.rb_cache.specs.Arena.{saved_of, WellStamped};

use crate::entry::Entry;
use rb_base::Steps;
use rb_cell::Cells;
use std::sync::ledger::Ledger;

/// Puts back what the entries from `first` on saved, the last first, and takes these entries off.
pub fn undo<L: Ledger>(
    stamps: &mut Vec<usize>,
    arena: &mut Vec<Entry>,
    first: usize,
    cells: &mut Cells<L>,
    steps: &mut Steps<L>,
)
    requires first { first ≤ length arena.old.items }
    requires stamped { WellStamped stamps.old.items arena.old.items }
    requires below { AllByRecursion (λ s. s.place < length stamps.old.items) (map saved_of (drop first arena.old.items)) }
    requires within { AllByRecursion (λ s. s.place < length cells.old.words) (map saved_of (drop first arena.old.items)) }
    ensures arena { arena.new.items ≡ take first arena.old.items }
    ensures room { vec_capacity arena.new ≡ vec_capacity arena.old }
    ensures stamps { length stamps.new.items ≡ length stamps.old.items }
    ensures stamps_room { vec_capacity stamps.new ≡ vec_capacity stamps.old }
    ensures stamped { WellStamped stamps.new.items arena.new.items }
    ensures cells { cells.new ≡ record { words = put_back cells.old.words (map saved_of (drop first arena.old.items)); limit = cells.old.limit } }
    ensures ticks { steps.new ≡ steps.old + (length arena.old.items - first) }
{
    while arena.len() > first {
        let Some(entry) = arena.pop() else {
            return;
        };
        stamps[entry.place as usize] = entry.earlier;
        cells.write(entry.place, entry.value, steps);
    }
}
