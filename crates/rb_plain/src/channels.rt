//! What a receiver of a plain run can see, and how much room a sender has.

ghost use Rattle.std.specs.Prelude.{◌≡◌, ◌+◌, map, nat_lt, option_map, slice_get};
ghost use Rattle.rb_syntax.specs.Tree.{Tree};
ghost use Rattle.rb_syntax.specs.Plain.{tree};
ghost use Rattle.rb_world.specs.Channels.{first_message, has_room, has_room_for, message_between, message_there, seen_copy, seen_count};
ghost use Rattle.rb_world.specs.World.{is_shared};
ghost use Rattle.rb_meaning.specs.Environment.{natural};
ghost use Rattle.rb_meaning.specs.Meaning.{taken_on};
ghost use Rattle.rb_levels.specs.Worlds.{level_of, process_of, unkept_kind, world_of};
ghost use Rattle.rb_walk.specs.States.{state_of};

use rb_levels::{Level, Process, count_at, room_from};
use rb_meaning::numbers::process_number;
use rb_syntax::{Number, Program};

/// Whether a send on this channel has room.
pub(crate) fn has_room<'a>(
    program: &Program<'a>,
    processes: &[Process<'_, 'a>],
    channel: usize,
) -> bool
    ensures { result ≡ has_room (unkept_kind (tree program.now)) (world_of (tree program.now) processes.now) channel }
{
    if channel >= program.channels.len() {
        return false;
    }
    let declared = &program.channels[channel];
    let sender = process_number(program, declared.sender.text);
    let receiver = process_number(program, declared.receiver.text);
    has_room_between(processes, sender, receiver, channel, declared.size)
}

// Whether a send of one of these processes to another has room, by their numbers; none where one of the two is missing.
fn has_room_between(
    processes: &[Process<'_, '_>],
    sender: usize,
    receiver: usize,
    channel: usize,
    size: Number,
) -> bool
    ensures { (tree : Tree) →
        result ≡ has_room_for (unkept_kind tree) channel (record { sender = sender; receiver = receiver; size = natural size.value })
        (slice_get (map process_of processes.now) sender) (slice_get (map process_of processes.now) receiver) }
{
    if sender >= processes.len() {
        return false;
    }
    if receiver >= processes.len() {
        return false;
    }
    let from = room_from(&processes[receiver], channel);
    has_room_behind(processes[sender].state.sent_on(channel), from, size)
}

// So many were sent, and fewer than `size` of them come after this number; a size below 0 counts as 0.
fn has_room_behind(sent: usize, from: usize, size: Number) -> bool
    ensures { result ≡ nat_lt sent (natural size.value + from) }
{
    match sent.checked_sub(from) {
        None => true,
        Some(behind) => size.value > 0 && (behind as u64) < (size.value as u64),
    }
}

/// The first message that the receiver of this channel can see and did not take, if there is one.
pub(crate) fn message_there<'a>(
    program: &Program<'a>,
    processes: &[Process<'_, 'a>],
    channel: usize,
) -> Option<i64>
    ensures { result ≡ message_there (unkept_kind (tree program.now)) (world_of (tree program.now) processes.now) channel }
{
    if channel >= program.channels.len() {
        return None;
    }
    let declared = &program.channels[channel];
    let sender = process_number(program, declared.sender.text);
    let receiver = process_number(program, declared.receiver.text);
    message_between(processes, sender, receiver, channel)
}

// The first message that one of these processes can see of another and did not take, by their numbers; none where one of the two is missing.
fn message_between(
    processes: &[Process<'_, '_>],
    sender: usize,
    receiver: usize,
    channel: usize,
) -> Option<i64>
    ensures { (tree : Tree) →
        result ≡ message_between (unkept_kind tree) tt channel
        (slice_get (map process_of processes.now) sender) (slice_get (map process_of processes.now) receiver) }
{
    if sender >= processes.len() {
        return None;
    }
    if receiver >= processes.len() {
        return None;
    }
    first_message(&processes[sender], &processes[receiver], channel)
}

// The first message between these two that is seen and was not taken.
fn first_message<'t, 'a>(
    sender: &Process<'t, 'a>,
    receiver: &Process<'t, 'a>,
    channel: usize,
) -> Option<i64>
    ensures { (tree : Tree) →
        result ≡ first_message (unkept_kind tree) tt channel (state_of sender.now.state)
        (seen_copy (map level_of sender.now.levels.items) (map level_of receiver.now.levels.items)) (taken_on (state_of receiver.now.state) channel) }
{
    let taken = receiver.state.taken_on(channel);
    if taken < seen(sender, receiver, channel) {
        Some(sender.state.message(channel, taken))
    } else {
        None
    }
}

// How many values of the sender's the receiver can see: those at the entry of the sender's first level that the two do not share, or all.
fn seen<'t, 'a>(sender: &Process<'t, 'a>, receiver: &Process<'t, 'a>, channel: usize) -> usize
    ensures { (tree : Tree) →
        result ≡ seen_count (unkept_kind tree) (state_of sender.now.state)
        (seen_copy (map level_of sender.now.levels.items) (map level_of receiver.now.levels.items)) channel }
{
    match first_own(&sender.levels, &receiver.levels) {
        Some(level) => count_at(&level.sent, channel),
        None => sender.state.sent_on(channel),
    }
}

// The first level that is not shared with these others: levels are shared as far as they are, from the outside in, of the same
// conversations.
fn first_own<'l, 't, 'a>(
    mut levels: &'l [Level<'t, 'a>],
    mut others: &'l [Level<'t, 'a>],
) -> Option<&'l Level<'t, 'a>>
    ensures { option_map (λ level. (level_of level.now).copy) result ≡ seen_copy (map level_of levels.entry.now) (map level_of others.entry.now) }
{
    while let [level, inner @ ..] = levels {
        match others {
            [other, behind @ ..] if is_shared(level, other) => {
                levels = inner;
                others = behind;
            }
            _ => return Some(level),
        }
    }
    None
}

fn is_shared(level: &Level<'_, '_>, other: &Level<'_, '_>) -> bool
    ensures { result ≡ is_shared level.now.conversation other.now.conversation }
{
    match (level.conversation, other.conversation) {
        (Some(conversation), Some(other)) => conversation == other,
        _ => false,
    }
}
