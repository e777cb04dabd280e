//! A channel as it is looked at between turns.

ghost use Rattle.std.specs.Prelude.{◌≡◌, ◌+◌, ◌-◌, ◌<◌, ◌≤◌, ◌^◌, List, length};
ghost use Rattle.rb_world.specs.Kind.{Membership};
ghost use Rattle.rb_code.specs.Instructions.Plain.{code as plain};
ghost use Rattle.rb_machine.specs.Looking.{CopiesBelow, IsViewOn};
ghost use Rattle.rb_recovery.specs.Reading.{AreCounted};
ghost use Rattle.rb_recovery.specs.Worlds.{processes_of};

use rb_base::Steps;
use rb_code::Code;
use rb_proc::Proc;
use rb_recovery::channels::{room_from, seen_count};
use std::sync::ledger::Ledger;

/// A channel as callers see it: how many messages were sent and how many taken, how many of those that were sent its receiver can see, and
/// for how many more there is room.
#[derive(Clone, Copy)]
pub struct ChannelView {
    pub sent: u64,
    pub taken: u64,
    pub seen: u64,
    pub free: u64,
}

/// What is seen of a channel.
pub fn view_at<L: Ledger>(
    code: &Code,
    procs: &[Proc<L>],
    channel: u32,
    steps: &mut Steps<L>,
) -> ChannelView
    requires counted { AreCounted (plain code.now) procs.now }
    requires copies { CopiesBelow (plain code.now) procs.now }
    requires channel { channel < length (plain code.now).channels }
    ensures view { (groups : List Membership) → IsViewOn (plain code.now) groups (processes_of procs.now) channel result }
    ensures ticks { steps.new ≤ steps.old + 4 }
{
    let ends = code.channels[channel as usize];
    let sender = &procs[ends.sender as usize];
    let receiver = &procs[ends.receiver as usize];
    let sent = sender.cursor(code, channel, steps);
    let taken = receiver.cursor(code, channel, steps);
    let seen = seen_count(code, sender, receiver, channel, sent, steps);
    let from = room_from(code, receiver, channel, steps);
    let free = room_left(sent, from, ends.size);
    ChannelView {
        sent,
        taken,
        seen,
        free,
    }
}

// The room for `size` messages more than `from`, of which so many were sent.
fn room_left(sent: u64, from: u64, size: u32) -> u64
    requires { from < 2 ^ 63 }
    ensures { result ≡ size + from - sent }
{
    (u64::from(size) + from).saturating_sub(sent)
}
