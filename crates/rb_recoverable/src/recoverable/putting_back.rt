//! The copy of an open level is put back: its words, its calls and its lines.

ghost use Rattle.std.specs.Prelude.{◌≡◌, ◌+◌, ◌<◌, ◌≤◌, [], length, take, slice_get};
ghost use Rattle.rb_cache.specs.Copies.{Fits, change_last, copies, copy_at, entered, open_levels};
ghost use Rattle.rb_recoverable.specs.Contents.{IsMarkOf, PutBack};
ghost use Rattle.rb_recoverable.specs.Inside.{told as told_by};
ghost use Rattle.rb_recoverable.specs.Touched.{places_touched};

use super::{LevelMark, Recoverable, natural};
use crate::marks::sooner;
use rb_base::Steps;
use rb_cache::Cache;
use rb_cell::Cells;
use std::sync::ledger::Ledger;

impl<L: Ledger> Recoverable<L> {
    /// Puts the copy of an open level back. The levels inside it go, and so do the lines that were held after its entry. At most one tick for
    /// each place that was touched in a level and no longer is, and one more.
    pub fn put_back(&mut self, level: u32, steps: &mut Steps<L>) -> LevelMark
        requires none_waits { self.old.waiting ≡ [] }
        requires level { level < length self.old.levels }
        ensures back { PutBack level self.old (slice_get self.old.levels level) self.new }
        ensures mark { IsMarkOf (slice_get self.old.levels level) result }
        ensures work { steps.new + places_touched self.new.touched ≤ steps.old + places_touched self.old.touched + 1 }
    {
        put_back(&mut self.cache, &mut self.cells, level, steps);
        let mark = self.marks[level as usize];
        self.marks.truncate(level as usize + 1);
        self.deadline = sooner(mark.around, mark.since, mark.facts.bound);
        self.calls.truncate(mark.calls);
        let held = told(&self.cells, steps);
        // Read for its range: the held length of the copy is no greater.
        let _all = self.hold.length();
        self.hold.cut_to(held as u32);
        mark
    }
}

// Puts back the words of an open level, from the inside out: each level inside it is put back, and then goes with nothing touched.
fn put_back<L: Ledger>(cache: &mut Cache, cells: &mut Cells<L>, level: u32, steps: &mut Steps<L>)
    requires fits { Fits cells.old.words cache.old }
    requires level { level < length (open_levels cache.old) }
    ensures cells { cells.new ≡ record { words = copy_at cells.old.words cache.old level; limit = cells.old.limit } }
    ensures copies { copies cells.new.words cache.new ≡ take (level + 1) (copies cells.old.words cache.old) }
    ensures levels { open_levels cache.new ≡ change_last (λ touched. entered touched.height) (take (level + 1) (open_levels cache.old)) }
    ensures fits { Fits cells.new.words cache.new }
    ensures limits { cache.new.limits ≡ cache.old.limits }
    ensures work { steps.new + places_touched (open_levels cache.new) ≤ steps.old + places_touched (open_levels cache.old) }
{
    'inner: while level < cache.levels() - 1 {
        cache.reject(cells, steps);
        cache.accept(cells);
    }
    cache.reject(cells, steps);
}

// The held bytes that words tell of.
fn told<L: Ledger>(cells: &Cells<L>, steps: &mut Steps<L>) -> u64
    requires { 0 < length cells.now.words }
    ensures told { result ≡ told_by cells.now.words }
    ensures ticks { steps.new ≤ steps.old + 1 }
{
    natural(cells.read(0, steps))
}
