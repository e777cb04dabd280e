//! What is looked at beside turns: the turn of an entry, the copies, the open calls, and the held lines.

ghost use Rattle.std.specs.Prelude.{◌≡◌, ◌<◌, ◌≤◌, length, slice_get, option_copied, Some};
ghost use Rattle.rb_base.specs.declared.limits.TheConstants.{MOST_HELD_BYTES};
ghost use Rattle.rb_world.specs.World.{last_of};
ghost use Rattle.rb_hold.specs.Stored.{AreLines, lines_in};
ghost use Rattle.rb_recoverable.specs.Inside.{call_of};
ghost use Rattle.rb_recoverable.specs.Views.{IsCopyOf, IsEntryOf};

use super::{OpenCall, Recoverable};
use crate::level_view::CopyView;
use std::sync::ledger::Ledger;

impl<L: Ledger> Recoverable<L> {
    /// The turn in which an open level was entered, which is the last kept one of its copy.
    pub fn entered(&self, k: u32) -> u32
        requires { k < length self.now.levels }
        ensures { IsEntryOf (slice_get self.now.levels k) result }
    {
        self.marks[k as usize].last_kept
    }

    /// The copy of an open level, beside its words; levels count from 0, the outermost.
    pub fn copy(&self, k: u32) -> CopyView
        requires { k < length self.now.levels }
        ensures { IsCopyOf (slice_get self.now.levels k) self.now.calls result }
    {
        let mark = self.marks[k as usize];
        CopyView {
            at: mark.at,
            height: mark.height,
            newer_calls: self.calls.len() - mark.calls,
        }
    }

    /// An open call; calls count from 0, the running one.
    pub fn call(&self, k: usize) -> OpenCall
        requires { k < length self.now.calls }
        ensures { slice_get self.now.calls k ≡ Some (call_of result) }
    {
        self.calls[self.calls.len() - 1 - k]
    }

    /// The held lines as they are stored, one after another, each with LF behind it.
    pub fn held_text(&self) -> &[u8]
        ensures lines { lines_in result.now ≡ self.now.held }
        ensures stored { AreLines result.now }
    {
        self.hold.held_text()
    }

    /// How many lines are held.
    pub fn held_lines(&self) -> u32
        ensures count { result ≡ length self.now.held }
        ensures few { result ≤ MOST_HELD_BYTES }
    {
        self.hold.held_lines()
    }

    /// The line that is held last, if one is.
    pub fn last_held(&self) -> Option<&[u8]>
        ensures { option_copied result ≡ last_of self.now.held }
    {
        self.hold.last_held()
    }
}
