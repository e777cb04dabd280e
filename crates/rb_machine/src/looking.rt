//! What is looked at of processes, channels and conversations between turns.

ghost use Rattle.std.specs.Prelude.{◌≡◌, ◌<◌, ◌≤◌, length, slice_get, option_copied, Some};
ghost use Rattle.rb_base.specs.declared.limits.TheConstants.{MOST_HELD_BYTES};
ghost use Rattle.rb_world.specs.World.{Process, Talk, last_of};
ghost use Rattle.rb_code.specs.WordMachine.Turn.{Copy, Standing};
ghost use Rattle.rb_conv.specs.Conversations.{talks};
ghost use Rattle.rb_proc.specs.Statuses.{status_of};
ghost use Rattle.rb_recoverable.specs.Views.{IsEntryOf, IsViewOf};
ghost use Rattle.rb_recovery.specs.Worlds.{processes_of};

use rb_conv::Table;
use rb_proc::{LevelView, Proc, ProcessStatus};
use std::sync::ledger::Ledger;

/// Process p itself.
pub fn process_at<L: Ledger>(procs: &[Proc<L>], p: u32) -> &Proc<L>
    requires { p < length procs.now }
    ensures { slice_get (processes_of procs.now) p ≡ Some result.now.process }
{
    &procs[p as usize]
}

/// Whether process p runs, is done, or has failed, and then with which cause.
pub fn status_at<L: Ledger>(procs: &[Proc<L>], p: u32) -> ProcessStatus
    requires { p < length procs.now }
    ensures { (q : Process Standing Copy) → slice_get (processes_of procs.now) p ≡ Some q → status_of result ≡ q.status }
{
    procs[p as usize].status()
}

/// How many levels process p has open.
pub fn levels_at<L: Ledger>(procs: &[Proc<L>], p: u32) -> u32
    requires { p < length procs.now }
    ensures { (q : Process Standing Copy) → slice_get (processes_of procs.now) p ≡ Some q → result ≡ length q.levels }
{
    procs[p as usize].levels()
}

/// An open level of process p; levels count from 0, the outermost.
pub fn level_at<L: Ledger>(procs: &[Proc<L>], p: u32, k: u32) -> LevelView
    requires process { p < length procs.now }
    requires level { (q : Process Standing Copy) → slice_get (processes_of procs.now) p ≡ Some q → k < length q.levels }
    ensures { (q : Process Standing Copy) → slice_get (processes_of procs.now) p ≡ Some q → IsViewOf (slice_get q.levels k) result }
{
    procs[p as usize].level(k)
}

/// The turn in which an open level of process p was entered.
pub fn entered_at<L: Ledger>(procs: &[Proc<L>], p: u32, k: u32) -> u32
    requires process { p < length procs.now }
    requires level { (q : Process Standing Copy) → slice_get (processes_of procs.now) p ≡ Some q → k < length q.levels }
    ensures { (q : Process Standing Copy) → slice_get (processes_of procs.now) p ≡ Some q → IsEntryOf (slice_get q.levels k) result }
{
    procs[p as usize].entered(k)
}

/// How many lines process p holds.
pub fn held_at<L: Ledger>(procs: &[Proc<L>], p: u32) -> u32
    requires { p < length procs.now }
    ensures count { (q : Process Standing Copy) → slice_get (processes_of procs.now) p ≡ Some q → result ≡ length q.state.held }
    ensures few { result ≤ MOST_HELD_BYTES }
{
    procs[p as usize].held_lines()
}

/// The line that process p holds last, if it holds one.
pub fn last_held_at<L: Ledger>(procs: &[Proc<L>], p: u32) -> Option<&[u8]>
    requires { p < length procs.now }
    ensures { (q : Process Standing Copy) → slice_get (processes_of procs.now) p ≡ Some q → option_copied result ≡ last_of q.state.held }
{
    procs[p as usize].last_held()
}

/// The present alternate of a conversation.
pub fn alternate_at(table: &Table, conversation: u32) -> u32
    requires { conversation < length table.now }
    ensures { (t : Talk) → slice_get (talks table.now) conversation ≡ Some t → result ≡ t.alternate }
{
    table.alternate(conversation)
}

/// Whether a conversation is broken for good.
pub fn is_broken_at(table: &Table, conversation: u32) -> bool
    requires { conversation < length table.now }
    ensures { (t : Talk) → slice_get (talks table.now) conversation ≡ Some t → result ≡ t.is_broken }
{
    table.broken(conversation)
}
