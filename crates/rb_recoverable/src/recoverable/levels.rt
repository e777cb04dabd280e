//! The open levels of a process.

ghost use Rattle.std.specs.Prelude.{◌≡◌, ◌-◌, ◌<◌, ◌^◌, [], ◌∷◌, ◌++◌, length, map, position, slice_get};
ghost use Rattle.rb_base.specs.declared.limits.TheConstants.{MOST_OPEN_LEVELS};
ghost use Rattle.rb_world.specs.Standing.{Each};
ghost use Rattle.rb_world.specs.Turn.{is_last_of, is_over, one_used, tried_at};
ghost use Rattle.rb_world.specs.Reject.{next_alternate};
ghost use Rattle.rb_world.specs.World.{change_at, is_of, last_of, without_last};
ghost use Rattle.rb_cache.specs.Copies.{Fits, accepted, entered, open_levels};
ghost use Rattle.rb_recoverable.specs.Contents.{IsBelowLast, facts_of};
ghost use Rattle.rb_recoverable.specs.Views.{IsViewOf};

use super::{BlockFacts, LevelMark, Recoverable};
use crate::level_view::LevelView;
use crate::marks::{begin_earlier, first_over, is_last_in, next_mark, place_in, sooner, view_of};
use rb_cache::Cache;
use rb_cell::Cells;
use rb_hold::room::put;
use std::sync::ledger::Ledger;

impl<L: Ledger> Recoverable<L> {
    /// Opens a level.
    pub fn open(&mut self, facts: BlockFacts, alternate: u32, at: u32, last_kept: u32)
        requires { length self.old.levels < MOST_OPEN_LEVELS }
        ensures { self.new ≡ record self.old {
          touched = self.old.touched ++ entered (length self.old.words) ∷ [];
          levels = self.old.levels ++ record { facts = facts_of facts; alternate = alternate; used = 0; copy = record { at = at; words = self.old.words; calls = self.old.calls; last_kept = last_kept } } ∷ [];
        } }
    {
        self.cache.open(&self.cells);
        let mark = LevelMark {
            facts,
            alternate,
            since: self.clock,
            around: self.deadline,
            at,
            calls: self.calls.len(),
            height: self.cells.height(),
            last_kept,
        };
        put(&mut self.marks, mark);
        self.deadline = sooner(self.deadline, self.clock, facts.bound);
    }

    /// The innermost level goes.
    pub fn accept(&mut self)
        requires { 0 < length self.old.levels }
        ensures { self.new ≡ record self.old { touched = accepted self.old.touched; levels = without_last self.old.levels } }
    {
        self.cache.accept(&self.cells);
        let last = self.marks.len() - 1;
        let mark = self.marks[last];
        self.deadline = mark.around;
        self.marks.truncate(last);
    }

    /// How many levels are open.
    pub fn levels(&self) -> u32
        ensures { result ≡ length self.now.levels }
    {
        self.marks.len() as u32
    }

    /// An open level; levels count from 0, the outermost.
    pub fn level(&self, k: u32) -> LevelView
        requires { k < length self.now.levels }
        ensures { IsViewOf (slice_get self.now.levels k) result }
    {
        view_of(self.marks[k as usize], self.clock)
    }

    /// The alternate of the innermost level, and 0 without one.
    pub fn alternate(&self) -> u32
        ensures { result ≡ tried_at (last_of self.now.levels) }
    {
        let count = self.marks.len();
        if count == 0 {
            0
        } else {
            self.marks[count - 1].alternate
        }
    }

    /// The first level of a conversation, from the outside in.
    pub fn place_in(&self, conversation: u32) -> Option<u32>
        ensures { result ≡ position (is_of conversation) self.now.levels }
    {
        place_in(&self.marks, conversation)
    }

    /// Whether the innermost level is one of a conversation.
    pub fn is_last_of(&self, conversation: u32) -> bool
        ensures { result ≡ is_last_of conversation (last_of self.now.levels) }
    {
        is_last_in(&self.marks, conversation)
    }

    /// Each level has used one turn more; tells the first one, from the outside in, that is over its bound then.
    pub fn count_turn(&mut self) -> Option<u32>
        requires { Each (λ _ level. level.used < 2 ^ 32 - 1) self.old.levels }
        ensures turn { self.new ≡ record self.old { levels = map one_used self.old.levels } }
        ensures over { result ≡ position is_over self.new.levels }
    {
        if self.clock < self.deadline {
            self.clock += 1;
            None
        } else {
            self.count_by_marks()
        }
    }

    // The same where a level may be beyond its bound then, or the clock is at its end.
    #[cold]
    #[inline(never)]
    fn count_by_marks(&mut self) -> Option<u32>
        requires { Each (λ _ level. level.used < 2 ^ 32 - 1) self.old.levels }
        ensures turn { self.new ≡ record self.old { levels = map one_used self.old.levels } }
        ensures over { result ≡ position is_over self.new.levels }
    {
        self.tick();
        first_over(&self.marks, self.clock)
    }

    // The clock goes on. At its end each level began one turn earlier in place of that, and no deadline is ahead any more.
    fn tick(&mut self)
        requires { Each (λ _ level. level.used < 2 ^ 32 - 1) self.old.levels }
        ensures { self.new ≡ record self.old { levels = map one_used self.old.levels } }
    {
        if self.clock < u32::MAX {
            self.clock += 1;
        } else {
            begin_earlier(&mut self.marks);
            self.deadline = 0;
        }
    }

    /// A level goes on to its next alternate, with no turns used.
    pub fn raise(&mut self, level: u32)
        requires level { level < length self.old.levels }
        requires few { IsBelowLast (slice_get self.old.levels level) }
        ensures { self.new ≡ record self.old { levels = change_at level next_alternate self.old.levels } }
    {
        let mark = self.marks[level as usize];
        self.marks[level as usize] = next_mark(mark, self.clock);
        // With levels inside it the deadline stays: it is theirs too, and may only be too early.
        if level as usize + 1 == self.marks.len() {
            self.deadline = sooner(mark.around, self.clock, mark.facts.bound);
        }
    }

    /// All levels go, and the words stay.
    pub fn forget_levels(&mut self)
        ensures { self.new ≡ record self.old { touched = []; levels = [] } }
    {
        forget(&mut self.cache, &self.cells);
        self.marks.clear();
        self.deadline = u32::MAX;
    }
}

// All levels go, from the inside out.
fn forget<L: Ledger>(cache: &mut Cache, cells: &Cells<L>)
    requires { Fits cells.now.words cache.old }
    ensures none { length (open_levels cache.new) ≡ 0 }
    ensures fits { Fits cells.now.words cache.new }
    ensures limits { cache.new.limits ≡ cache.old.limits }
{
    'inner: while cache.levels() > 0 {
        cache.accept(cells);
    }
}
