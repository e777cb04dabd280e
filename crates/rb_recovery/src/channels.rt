//! Whether a channel has room for a message, and whether one is there.

ghost use Rattle.std.specs.Prelude.{◌≡◌, ℕ, ◌+◌, ◌<◌, ◌≤◌, nat_lt, List, length, slice_get, None};
ghost use Rattle.rb_world.specs.Channels.{has_room, message_there, seen_copy};
ghost use Rattle.rb_world.specs.Kind.{Membership};
ghost use Rattle.rb_world.specs.World.{Talk, is_shared};
ghost use Rattle.rb_code.specs.Instructions.Plain.{code as plain};
ghost use Rattle.rb_code.specs.SoundCode.Sound.{IsReceiver};
ghost use Rattle.rb_code.specs.WordMachine.Turn.{Common};
ghost use Rattle.rb_code.specs.WordMachine.WordKind.{word_kind};
ghost use Rattle.rb_recovery.specs.Channels.{AreNumbered, HasCursor, IsCopyAt, NoneFell, conversation_in, cursor_at, message_given, outermost_copy};
ghost use Rattle.rb_recovery.specs.Worlds.{processes_of};

use rb_base::Steps;
use rb_code::Code;
use rb_proc::Proc;
use std::sync::ledger::Ledger;

/// Whether a send on a channel has room: less than its size more messages were sent than the receiver had taken at the entry of its
/// outermost level, or has taken by now if it has no level. A channel has no room if the code does not have it, nor both its ends.
pub fn has_room<L: Ledger>(
    code: &Code,
    procs: &[Proc<L>],
    channel: u32,
    steps: &mut Steps<L>,
) -> bool
    requires numbered { AreNumbered (plain code.now) procs.now }
    ensures room { (groups : List Membership) (talks : List Talk) (memory : Common)
        → result ≡ has_room (word_kind (plain code.now) groups)
        (record { processes = processes_of procs.now; talks = talks; memory = memory }) channel }
    ensures ticks { steps.new ≤ steps.old + 2 }
{
    let Some(ends) = code.channels.get(channel as usize) else {
        return false;
    };
    let sender = ends.sender as usize;
    let receiver = ends.receiver as usize;
    if sender >= procs.len() {
        return false;
    }
    if receiver >= procs.len() {
        return false;
    }
    let sent = procs[sender].cursor(code, channel, steps);
    let from = room_from(code, &procs[receiver], channel, steps);
    is_within(sent, from, ends.size)
}

/// The number of the message that is there for process p, the receiver of a channel: that of its cursor, if more were sent than it has
/// taken, up to the entry of the sender's first level that the two do not share. None is there if the code does not have the sender. Where
/// no more were sent by now than it has taken, none is seen either, whatever levels there are.
pub fn message_there<L: Ledger>(
    code: &Code,
    procs: &[Proc<L>],
    p: u32,
    channel: u32,
    steps: &mut Steps<L>,
) -> Option<u64>
    requires numbered { AreNumbered (plain code.now) procs.now }
    requires risen { NoneFell (plain code.now) procs.now }
    requires process { p < length procs.now }
    requires receiver { IsReceiver (slice_get (plain code.now).channels channel) p }
    ensures there { (groups : List Membership) (talks : List Talk) (memory : Common)
        → message_there (word_kind (plain code.now) groups)
        (record { processes = processes_of procs.now; talks = talks; memory = memory }) channel
        ≡ message_given (plain code.now) memory.slots channel result }
    ensures ticks { steps.new ≤ steps.old + 3 }
{
    let from = code.channels[channel as usize].sender as usize;
    if from >= procs.len() {
        return None;
    }
    let sender = &procs[from];
    let receiver = &procs[p as usize];
    let taken = receiver.cursor(code, channel, steps);
    let sent = sender.cursor(code, channel, steps);
    if sent <= taken {
        return None;
    }
    let seen = seen_count(code, sender, receiver, channel, sent, steps);
    (taken < seen).then_some(taken)
}

// The sender's first level that it does not share with the receiver, whose copy is what the receiver sees of it; none where the receiver
// sees its present state.
fn first_own_level<L: Ledger>(sender: &Proc<L>, receiver: &Proc<L>) -> Option<u32>
    ensures copy { IsCopyAt sender.now.process.levels result (seen_copy sender.now.process.levels receiver.now.process.levels) }
{
    for level in 0..sender.levels() {
        let own = conversation_at(sender, level);
        let other = conversation_at(receiver, level);
        if !is_shared(own, other) {
            return Some(level);
        }
    }
    None
}

// Whether both are of one conversation.
fn is_shared(one: Option<u32>, other: Option<u32>) -> bool
    ensures { result ≡ is_shared one other }
{
    match (one, other) {
        (Some(conversation), Some(another)) => another == conversation,
        _ => false,
    }
}

// The conversation of a level, and none where it is of none or no such level is open.
fn conversation_at<L: Ledger>(proc: &Proc<L>, level: u32) -> Option<u32>
    ensures { result ≡ conversation_in (slice_get proc.now.process.levels level) }
{
    if level < proc.levels() {
        proc.level(level).conversation
    } else {
        None
    }
}

/// How many messages of a channel the receiver sees of the sender, which has sent so many by now.
pub fn seen_count<L: Ledger>(
    code: &Code,
    sender: &Proc<L>,
    receiver: &Proc<L>,
    channel: u32,
    sent: u64,
    steps: &mut Steps<L>,
) -> u64
    requires cursors { HasCursor (plain code.now) channel sender.now }
    requires sent { sent ≡ cursor_at (plain code.now) channel sender.now.process None }
    ensures cursor { result
        ≡ cursor_at (plain code.now) channel sender.now.process (seen_copy sender.now.process.levels receiver.now.process.levels) }
    ensures ticks { steps.new ≤ steps.old + 1 }
{
    match first_own_level(sender, receiver) {
        None => sent,
        Some(level) => sender.cursor_then(code, channel, level, steps),
    }
}

/// From which number on the receiver leaves room for so many messages as a channel's size.
pub fn room_from<L: Ledger>(
    code: &Code,
    receiver: &Proc<L>,
    channel: u32,
    steps: &mut Steps<L>,
) -> u64
    requires cursors { HasCursor (plain code.now) channel receiver.now }
    ensures cursor { result ≡ cursor_at (plain code.now) channel receiver.now.process (outermost_copy receiver.now.process.levels) }
    ensures ticks { steps.new ≤ steps.old + 1 }
{
    if receiver.levels() > 0 {
        receiver.cursor_then(code, channel, 0, steps)
    } else {
        receiver.cursor(code, channel, steps)
    }
}

// Whether less than `size` more than `from` were sent.
fn is_within(sent: u64, from: u64, size: u32) -> bool
    ensures { result ≡ nat_lt sent (size + from) }
{
    sent < from || sent - from < u64::from(size)
}
