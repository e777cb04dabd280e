//! The recovery cache itself: levels of words are opened, written, and then rejected or accepted.

ghost use Rattle.std.specs.Prelude.{◌≡◌, ℕ, ◌+◌, ◌-◌, ◌<◌, ◌≤◌, pos, List, [], ◌∷◌, ◌++◌, length, take, slice_set, get_or, IfOk};
ghost use Rattle.std.specs.List.{AllByRecursion};
ghost use Rattle.rb_cache.specs.Copies.{open_levels, copies, copy_at, last_copy, last_touched, Fits, IsLevel, entered, joined, change_last, accepted};

use crate::chain::{first_value, stamp_at};
use crate::entry::{Entry, Mark};
use crate::grow::cover;
use crate::merge::accept_top;
use crate::save::{put, save_prior};
use crate::undo::undo;
use rb_base::{Memory, Steps};
use rb_cell::Cells;
use std::alloc::Global;
use std::marker::Model;
use std::sync::ledger::Ledger;

/// Levels of a list of words, each of which can be put back as it was when it was opened. Contracts see a whole copy
/// of the words for each open level, from the outermost in, and the places that were touched in it; what is kept is
/// the first old value of each touched place alone.
///
/// The words lie in a `Cells` of the caller's, which every call is given. While a level is open, words change through
/// `write`, and there are at least as many as at the entry of each open level (`Fits`).
#[derive(Drop)]
pub struct Cache {
    stamps: Vec<usize>,
    arena: Vec<Entry>,
    marks: Vec<Mark>,
    levels: u32,
    words: u32,
}

impl Model for Cache {
    ghost use Rattle.std.specs.Prelude.{reverse};
    ghost use Rattle.rb_cache.specs.Copies.{RecoveryCache};
    ghost use Rattle.rb_cache.specs.Arena.{regions_of};
    ghost use Rattle.rb_cache.specs.Inside.{IsKept};

    ghost Value = { RecoveryCache };

    ghost view = { λ c. record { regions = regions_of (reverse c.marks.items) c.arena.items; limits = record { levels = c.levels; words = c.words } } };

    ghost invariant = { λ c. IsKept c };
}

impl Cache {
    /// No level is open. At most `levels` can be, over words whose places below `words` are written. All that can be
    /// needed is reserved here: a mark for each level, a stamp for each word, and `levels` times `words` entries.
    /// No other call takes memory; `Memory` if it is wanting.
    pub fn new(alloc: Global, levels: u32, words: u32) -> Result<Self, Memory>
        ensures { IfOk result (λ cache. cache ≡ record { regions = []; limits = record { levels = levels; words = words } }) }
    {
        let stamps = Vec::with_capacity(alloc, words as usize)?;
        let arena = Vec::with_capacity(alloc, levels as usize * words as usize)?;
        let marks = Vec::with_capacity(alloc, levels as usize)?;
        Ok(Cache {
            stamps,
            arena,
            marks,
            levels,
            words,
        })
    }

    /// How many levels are open. The places touched in each are distinct and below its height.
    pub fn levels(&self) -> u32
        ensures count { result ≡ length (open_levels self.now) }
        ensures touched { AllByRecursion IsLevel (open_levels self.now) }
    {
        // Read for its range: there are at most so many marks.
        let _levels = self.levels;
        self.marks.len() as u32
    }

    /// Opens a level: the words are its copy, and none of them is touched for it.
    pub fn open<L: Ledger>(&mut self, cells: &Cells<L>)
        requires room { length (open_levels self.old) < self.old.limits.levels }
        requires fits { Fits cells.now.words self.old }
        ensures copies { copies cells.now.words self.new ≡ copies cells.now.words self.old ++ cells.now.words ∷ [] }
        ensures levels { open_levels self.new ≡ open_levels self.old ++ entered (length cells.now.words) ∷ [] }
        ensures fits { Fits cells.now.words self.new }
        ensures limits { self.new.limits ≡ self.old.limits }
    {
        let height = cells.height();
        cover(&mut self.stamps, height, self.words);
        let mark = Mark {
            first: self.arena.len(),
            height,
        };
        put(&mut self.marks, mark);
    }

    /// Changes the word at a place, and no copy. If the place is below the innermost level's height, it is touched in
    /// that level from now on. At most two ticks.
    #[inline(always)]
    pub fn write<L: Ledger>(
        &mut self,
        cells: &mut Cells<L>,
        at: u32,
        value: i64,
        steps: &mut Steps<L>,
    )
        requires fits { Fits cells.old.words self.old }
        requires at { at < length cells.old.words }
        requires within { at < self.old.limits.words }
        ensures cells { cells.new ≡ record { words = slice_set cells.old.words at value; limit = cells.old.limit } }
        ensures copies { copies cells.new.words self.new ≡ copies cells.old.words self.old }
        ensures levels { open_levels self.new ≡ change_last (joined (at ∷ [])) (open_levels self.old) }
        ensures fits { Fits cells.new.words self.new }
        ensures limits { self.new.limits ≡ self.old.limits }
        ensures ticks { steps.new ≤ steps.old + 2 }
    {
        save_prior(
            &self.marks,
            &mut self.stamps,
            &mut self.arena,
            cells,
            at,
            steps,
        );
        cells.write(at, value, steps);
    }

    /// Puts back the copy of the innermost level, which stays open with nothing touched. At most one tick for each
    /// place that was touched in it.
    pub fn reject<L: Ledger>(&mut self, cells: &mut Cells<L>, steps: &mut Steps<L>)
        requires fits { Fits cells.old.words self.old }
        requires some { 0 < length (open_levels self.old) }
        ensures cells { cells.new ≡ record { words = last_copy cells.old.words self.old; limit = cells.old.limit } }
        ensures copies { copies cells.new.words self.new ≡ copies cells.old.words self.old }
        ensures levels { open_levels self.new ≡ change_last (λ level. entered level.height) (open_levels self.old) }
        ensures fits { Fits cells.new.words self.new }
        ensures limits { self.new.limits ≡ self.old.limits }
        ensures ticks { steps.new ≤ steps.old + length (last_touched self.old) }
    {
        let top = self.marks[self.marks.len() - 1];
        undo(&mut self.stamps, &mut self.arena, top.first, cells, steps);
        cells.drop_to(top.height);
    }

    /// Takes the innermost level away and keeps the words. The level around it has touched, from now on, the places
    /// below its height that the innermost one had. No word is touched.
    pub fn accept<L: Ledger>(&mut self, cells: &Cells<L>)
        requires fits { Fits cells.now.words self.old }
        requires some { 0 < length (open_levels self.old) }
        ensures copies { copies cells.now.words self.new ≡ take (length (open_levels self.old) - 1) (copies cells.now.words self.old) }
        ensures levels { open_levels self.new ≡ accepted (open_levels self.old) }
        ensures fits { Fits cells.now.words self.new }
        ensures limits { self.new.limits ≡ self.old.limits }
    {
        accept_top(&mut self.stamps, &mut self.arena, &mut self.marks);
    }

    /// The word at a place in the copy of the innermost level. At most one tick.
    pub fn prior<L: Ledger>(&self, cells: &Cells<L>, at: u32, steps: &mut Steps<L>) -> i64
        requires fits { Fits cells.now.words self.now }
        requires some { 0 < length (open_levels self.now) }
        requires at { at < length (last_copy cells.now.words self.now) }
        ensures word { result ≡ get_or (last_copy cells.now.words self.now) at (pos 0) }
        ensures ticks { steps.new ≤ steps.old + 1 }
    {
        self.at_entry(cells, self.levels() - 1, at, steps)
    }

    /// The word at a place in the copy of an open level; levels count from 0, the outermost. At most one tick.
    pub fn at_entry<L: Ledger>(
        &self,
        cells: &Cells<L>,
        level: u32,
        at: u32,
        steps: &mut Steps<L>,
    ) -> i64
        requires fits { Fits cells.now.words self.now }
        requires level { level < length (open_levels self.now) }
        requires at { at < length (copy_at cells.now.words self.now level) }
        ensures word { result ≡ get_or (copy_at cells.now.words self.now level) at (pos 0) }
        ensures ticks { steps.new ≤ steps.old + 1 }
    {
        let first = self.marks[level as usize].first;
        let last = stamp_at(&self.stamps, at);
        match first_value(&self.arena, first, last, at) {
            Some(value) => value,
            None => cells.read(at, steps),
        }
    }
}
