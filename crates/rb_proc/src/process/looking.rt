//! A process as it is looked at beside turns: the turns of its entries, its held lines, and all that it can recover.

ghost use Rattle.std.specs.Prelude.{◌≡◌, ◌<◌, ◌≤◌, length, slice_get, option_copied};
ghost use Rattle.rb_base.specs.declared.limits.TheConstants.{MOST_HELD_BYTES};
ghost use Rattle.rb_world.specs.World.{last_of};
ghost use Rattle.rb_recoverable.specs.Views.{IsEntryOf};
ghost use Rattle.rb_proc.specs.Memories.{IsMemoryOf};

use super::Proc;
use rb_recoverable::recoverable::Recoverable;
use std::sync::ledger::Ledger;

impl<L: Ledger> Proc<L> {
    /// The turn in which an open level was entered; levels count from 0, the outermost.
    pub fn entered(&self, k: u32) -> u32
        requires { k < length self.now.process.levels }
        ensures { IsEntryOf (slice_get self.now.process.levels k) result }
    {
        self.memory.entered(k)
    }

    /// Its words, its calls, its held lines and its levels.
    pub fn memory(&self) -> &Recoverable<L>
        ensures { IsMemoryOf self.now.process result.now }
    {
        &self.memory
    }

    /// How many lines are held.
    pub fn held_lines(&self) -> u32
        ensures count { result ≡ length self.now.process.state.held }
        ensures few { result ≤ MOST_HELD_BYTES }
    {
        self.memory.held_lines()
    }

    /// The line that is held last, if one is.
    pub fn last_held(&self) -> Option<&[u8]>
        ensures { option_copied result ≡ last_of self.now.process.state.held }
    {
        self.memory.last_held()
    }
}
