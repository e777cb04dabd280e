//! A machine as it is looked at between turns: its processes, channels and conversations as they stand.

ghost use Rattle.std.specs.Prelude.{◌≡◌, ◌+◌, ◌-◌, ◌<◌, ◌≤◌, length, slice_get, option_copied, Some};
ghost use Rattle.rb_base.specs.declared.limits.TheConstants.{MOST_HELD_BYTES};
ghost use Rattle.rb_world.specs.Slots.{slot_of};
ghost use Rattle.rb_world.specs.World.{Process, Talk, last_of};
ghost use Rattle.rb_code.specs.Instructions.Plain.{code as plain};
ghost use Rattle.rb_code.specs.WordMachine.Turn.{Copy, Standing};
ghost use Rattle.rb_proc.specs.Sees.{AreSized};
ghost use Rattle.rb_proc.specs.Statuses.{status_of};
ghost use Rattle.rb_recoverable.specs.Views.{IsEntryOf, IsViewOf};
ghost use Rattle.rb_recovery.specs.Known.{IsSoundFor};
ghost use Rattle.rb_machine.specs.Looking.{IsViewOn};

use super::Machine;
use crate::channel_view::{ChannelView, view_at};
use crate::looking::{
    alternate_at, entered_at, held_at, is_broken_at, last_held_at, level_at, levels_at, process_at,
    status_at,
};
use rb_base::Steps;
use rb_code::Code;
use rb_mail::Mails;
use rb_proc::{LevelView, Proc, ProcessStatus};
use rb_ready::message_at;
use std::sync::ledger::Ledger;

impl<'a, L: Ledger> Machine<'a, L> {
    /// Whether process p runs, is done, or has failed, and then with which cause.
    pub fn status(&self, p: u32) -> ProcessStatus
        requires { p < length self.now.world.processes }
        ensures { (q : Process Standing Copy) → slice_get self.now.world.processes p ≡ Some q → status_of result ≡ q.status }
    {
        status_at(&self.parts.procs, p)
    }

    /// Process p itself, whose number is p.
    pub fn process(&self, p: u32) -> &Proc<L>
        requires { p < length self.now.world.processes }
        ensures process { slice_get self.now.world.processes p ≡ Some result.now.process }
        ensures number { result.now.process.state.process ≡ p }
    {
        process_at(&self.parts.procs, p)
    }

    /// The code, which is sound; there are as many processes and as many conversations as it names.
    pub fn code(&self) -> &'a Code
        ensures code { plain result.now ≡ self.now.code }
        ensures sound { IsSoundFor self.now.code self.now.groups }
        ensures processes { length self.now.world.processes ≡ length self.now.code.processes }
        ensures conversations { length self.now.world.talks ≡ length self.now.groups }
    {
        self.code
    }

    /// The slots of the channels by number, each with as many as its size.
    pub fn mails(&self) -> &Mails
        ensures slots { result.now ≡ self.now.world.memory.slots }
        ensures sized { AreSized self.now.code result.now }
    {
        &self.parts.mails
    }

    /// How many levels process p has open.
    pub fn levels(&self, p: u32) -> u32
        requires { p < length self.now.world.processes }
        ensures { (q : Process Standing Copy) → slice_get self.now.world.processes p ≡ Some q → result ≡ length q.levels }
    {
        levels_at(&self.parts.procs, p)
    }

    /// An open level of process p; levels count from 0, the outermost.
    pub fn level(&self, p: u32, k: u32) -> LevelView
        requires process { p < length self.now.world.processes }
        requires level { (q : Process Standing Copy) → slice_get self.now.world.processes p ≡ Some q → k < length q.levels }
        ensures { (q : Process Standing Copy) → slice_get self.now.world.processes p ≡ Some q → IsViewOf (slice_get q.levels k) result }
    {
        level_at(&self.parts.procs, p, k)
    }

    /// The turn in which an open level of process p was entered.
    pub fn entered(&self, p: u32, k: u32) -> u32
        requires process { p < length self.now.world.processes }
        requires level { (q : Process Standing Copy) → slice_get self.now.world.processes p ≡ Some q → k < length q.levels }
        ensures { (q : Process Standing Copy) → slice_get self.now.world.processes p ≡ Some q → IsEntryOf (slice_get q.levels k) result }
    {
        entered_at(&self.parts.procs, p, k)
    }

    /// How many lines process p holds.
    pub fn held_lines(&self, p: u32) -> u32
        requires { p < length self.now.world.processes }
        ensures count { (q : Process Standing Copy) → slice_get self.now.world.processes p ≡ Some q → result ≡ length q.state.held }
        ensures few { result ≤ MOST_HELD_BYTES }
    {
        held_at(&self.parts.procs, p)
    }

    /// The line that process p holds last, if it holds one.
    pub fn last_held(&self, p: u32) -> Option<&[u8]>
        requires { p < length self.now.world.processes }
        ensures { (q : Process Standing Copy) → slice_get self.now.world.processes p ≡ Some q → option_copied result ≡ last_of q.state.held }
    {
        last_held_at(&self.parts.procs, p)
    }

    /// What is seen of a channel: how many messages were sent and taken, how many its receiver can see, and for how many more there is room.
    pub fn channel_view(&self, channel: u32, steps: &mut Steps<L>) -> ChannelView
        requires { channel < length self.now.code.channels }
        ensures view { IsViewOn self.now.code self.now.groups self.now.world.processes channel result }
        ensures ticks { steps.new ≤ steps.old + 4 }
    {
        view_at(self.code, &self.parts.procs, channel, steps)
    }

    /// The value of the message that was sent last on a channel, where `count` messages were sent.
    pub fn last_message(&self, channel: u32, count: u64) -> i64
        requires { 0 < count }
        ensures { slot_of self.now.code.channels self.now.world.memory.slots channel (count - 1) ≡ result }
    {
        message_at(&self.parts.mails, channel, count - 1)
    }

    /// The present alternate of a conversation.
    pub fn alternate(&self, conversation: u32) -> u32
        requires { conversation < length self.now.world.talks }
        ensures { (t : Talk) → slice_get self.now.world.talks conversation ≡ Some t → result ≡ t.alternate }
    {
        alternate_at(&self.parts.table, conversation)
    }

    /// Whether a conversation is broken for good.
    pub fn is_broken(&self, conversation: u32) -> bool
        requires { conversation < length self.now.world.talks }
        ensures { (t : Talk) → slice_get self.now.world.talks conversation ≡ Some t → result ≡ t.is_broken }
    {
        is_broken_at(&self.parts.table, conversation)
    }
}
