//! Channels: what each joins, and which of them the processes list.

ghost use Rattle.std.specs.Prelude.{◌≡◌, ◌↔◌, ◌||◌, IsTrue, map, nat_eq};
ghost use Rattle.std.specs.List.{All};
ghost use Rattle.rb_code.specs.Agreement.StandsFor.{channels_from};
ghost use Rattle.rb_code.specs.Instructions.Plain.{channel as plain_channel, code as plain};
ghost use Rattle.rb_code.specs.SoundCode.WellFormed.{JoinsTwo, ListsChannels};

use crate::rule::{Allows, all_allowed};
use rb_base::MOST_CHANNEL_SIZE;
use rb_code::{ChannelCode, Code};

/// Whether each channel leads from one process to another, with a lawful size.
pub(crate) fn all_join_two(code: &Code) -> bool
    ensures { IsTrue result ↔ All (λ channel. JoinsTwo (plain code.now) (plain_channel channel)) code.now.channels.items }
{
    all_allowed(code, &code.channels)
}

impl Allows<ChannelCode> for Code {
    ghost Law = { λ code channel. JoinsTwo (plain code) (plain_channel channel) };

    fn allows(&self, channel: &ChannelCode) -> bool {
        let processes = self.processes.len();
        (channel.sender as usize) < processes
            && (channel.receiver as usize) < processes
            && channel.sender != channel.receiver
            && 1 <= channel.size
            && channel.size <= MOST_CHANNEL_SIZE
    }
}

/// Whether each process lists the channels of which it is an end, in order.
pub(crate) fn are_listed(code: &Code) -> bool
    ensures { IsTrue result ↔ ListsChannels (plain code.now) }
{
    for (number, process) in code.processes.iter().enumerate() {
        if !lists(number, &process.channels, &code.channels) {
            return false;
        }
    }
    true
}

// Whether these are the numbers of the channels of which a process is an end.
fn lists(process: usize, listed: &[u32], channels: &[ChannelCode]) -> bool
    ensures { IsTrue result ↔ (listed.now ≡ channels_from process 0 (map plain_channel channels.now)) }
{
    let mut left = listed;
    for (number, channel) in channels.iter().enumerate() {
        if is_end(process, channel) {
            match left {
                [first, after @ ..] if *first as usize == number => left = after,
                _ => return false,
            }
        }
    }
    left.is_empty()
}

fn is_end(process: usize, channel: &ChannelCode) -> bool
    ensures { result ≡ (nat_eq channel.now.sender process || nat_eq channel.now.receiver process) }
{
    channel.sender as usize == process || channel.receiver as usize == process
}
