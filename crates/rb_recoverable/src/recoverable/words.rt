//! The words of a process: those that stand there, and those of the open copies.

ghost use Rattle.std.specs.Prelude.{◌≡◌, ◌+◌, ◌-◌, ◌*◌, ◌<◌, ◌≤◌, pos, [], ◌∷◌, ◌++◌, length, take, replicate, slice_get, slice_set};
ghost use Rattle.rb_world.specs.World.{last_of, copy_of};
ghost use Rattle.rb_cache.specs.Copies.{change_last, joined};
ghost use Rattle.rb_code.specs.WordMachine.Workspace.{word_at};
ghost use Rattle.rb_code.specs.SoundCode.Safe.{StayAbove};
ghost use Rattle.rb_code.specs.WordMachine.Turn.{prior_words};
ghost use Rattle.rb_recoverable.specs.Places.{most_places};

use super::Recoverable;
use rb_base::Steps;
use rb_cell::Cells;
use std::sync::ledger::Ledger;

impl<L: Ledger> Recoverable<L> {
    /// The word at a place.
    pub fn load(&self, at: usize, steps: &mut Steps<L>) -> i64
        requires { at < length self.now.words }
        ensures word { result ≡ word_at self.now.words at }
        ensures ticks { steps.new ≤ steps.old + 1 }
        ensures rise { steps.old ≤ steps.new }
    {
        self.cells.read(at as u32, steps)
    }

    /// The word at a place in the copy of the innermost level.
    pub fn prior(&self, at: usize, steps: &mut Steps<L>) -> i64
        requires { at < length (prior_words (copy_of (last_of self.now.levels))) }
        ensures word { result ≡ word_at (prior_words (copy_of (last_of self.now.levels))) at }
        ensures ticks { steps.new ≤ steps.old + 1 }
    {
        self.cache.prior(&self.cells, at as u32, steps)
    }

    /// The word at a place in the copy of an open level, and 0 beyond its words; levels count from 0, the outermost.
    pub fn at_entry(&self, level: u32, at: usize, steps: &mut Steps<L>) -> i64
        requires { level < length self.now.levels }
        ensures word { result ≡ word_at (prior_words (copy_of (slice_get self.now.levels level))) at }
        ensures ticks { steps.new ≤ steps.old + 1 }
    {
        if at < self.marks[level as usize].height as usize {
            self.cache.at_entry(&self.cells, level, at as u32, steps)
        } else {
            0
        }
    }

    /// Changes a word that is not the held length. No copy changes.
    pub fn store(&mut self, at: usize, value: i64, steps: &mut Steps<L>)
        requires some { 0 < at }
        requires at { at < length self.old.words }
        ensures word { self.new ≡ record self.old { words = slice_set self.old.words at value; touched = change_last (joined (at ∷ [])) self.old.touched } }
        ensures ticks { steps.new ≤ steps.old + 2 }
    {
        self.cache.write(&mut self.cells, at as u32, value, steps);
    }

    /// How many words there are.
    pub fn height(&self) -> u32
        ensures words { result ≡ length self.now.words }
        ensures few { result ≤ most_places }
    {
        self.cells.height()
    }

    /// So many words more, each 0.
    pub fn push_frame(&mut self, n: u32, steps: &mut Steps<L>)
        requires { length self.old.words + n ≤ most_places }
        ensures words { self.new ≡ record self.old { words = self.old.words ++ replicate n (pos 0) } }
        ensures ticks { steps.new ≤ steps.old + n }
    {
        self.cells.push_zeros(n, steps);
    }

    /// So many words fewer.
    pub fn drop_frame(&mut self, n: u32)
        requires words { n < length self.old.words }
        requires copies { StayAbove self.old.touched (length self.old.words - n) }
        ensures { self.new ≡ record self.old { words = take (length self.old.words - n) self.old.words } }
    {
        self.cells.drop_to(self.cells.height() - n);
    }
}

// Appends words.
pub(super) fn push_words<L: Ledger>(cells: &mut Cells<L>, words: &[i64], steps: &mut Steps<L>)
    requires { length cells.old.words + length words.now ≤ cells.old.limit }
    ensures words { cells.new ≡ record { words = cells.old.words ++ words.now; limit = cells.old.limit } }
    ensures ticks { steps.new ≤ steps.old + 2 * length words.now }
{
    for word in words {
        push_word(cells, *word, steps);
    }
}

fn push_word<L: Ledger>(cells: &mut Cells<L>, word: i64, steps: &mut Steps<L>)
    requires { length cells.old.words + 1 ≤ cells.old.limit }
    ensures words { cells.new ≡ record { words = cells.old.words ++ word ∷ []; limit = cells.old.limit } }
    ensures ticks { steps.new ≡ steps.old + 2 }
{
    let at = cells.height();
    cells.push_zeros(1, steps);
    cells.write(at, word, steps);
}
