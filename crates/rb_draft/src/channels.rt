//! The channels of a program, and those of one process.

ghost use Rattle.std.specs.Prelude.{◌≡◌, ◌++◌, ◌∷◌, [], cond, map, IfOk, OnOk};
ghost use Rattle.rb_syntax.specs.Plain.{channel_declaration};
ghost use Rattle.rb_code.specs.Instructions.Plain.{channel as plain_channel};
ghost use Rattle.rb_code.specs.Agreement.StandsFor.{channels_from};
ghost use Rattle.rb_draft.specs.Channels.{ends_by};

use crate::frames::natural;
use crate::lookups::process_of;
use rb_base::Memory;
use rb_code::ChannelCode;
use rb_scope::Slot;
use rb_syntax::Channel;
use std::alloc::Global;

/// The channels of a program, in the order of declaration.
pub fn channel_codes(
    alloc: Global,
    slots: &[Slot],
    channels: &[Channel<'_>],
) -> Result<Vec<ChannelCode>, Memory>
    ensures { IfOk result (λ codes. map plain_channel codes.items ≡ map (ends_by slots.now) (map channel_declaration channels.now)) }
{
    let mut codes = Vec::with_capacity(alloc, channels.len())?;
    let mut rest = channels;
    'channels: while let [channel, after @ ..] = rest {
        codes.push(channel_code(slots, channel)?)?;
        rest = after;
    }
    Ok(codes)
}

fn channel_code(slots: &[Slot], channel: &Channel<'_>) -> Result<ChannelCode, Memory>
    ensures { IfOk result (λ code. plain_channel code ≡ ends_by slots.now (channel_declaration channel.now)) }
{
    let size = natural(channel.size)?;
    Ok(ChannelCode {
        sender: process_of(slots, channel.sender.id),
        receiver: process_of(slots, channel.receiver.id),
        size,
    })
}

/// The numbers of the channels of which a process is an end.
pub fn channels_of(
    alloc: Global,
    process: u32,
    channels: &[ChannelCode],
) -> Result<Vec<u32>, Memory>
    ensures { IfOk result (λ numbers. numbers.items ≡ channels_from process 0 (map plain_channel channels.now)) }
{
    let mut numbers = Vec::new(alloc);
    let mut number: u32 = 0;
    let mut rest = channels;
    'channels: while let [channel, after @ ..] = rest {
        push_if(
            &mut numbers,
            channel.sender == process || channel.receiver == process,
            number,
        )?;
        number = number.checked_add(1).ok_or(Memory)?;
        rest = after;
    }
    Ok(numbers)
}

fn push_if(numbers: &mut Vec<u32>, is_end: bool, number: u32) -> Result<(), Memory>
    ensures { OnOk result (numbers.new.items ≡ numbers.old.items ++ cond is_end (number ∷ []) []) }
{
    if is_end {
        numbers.push(number)?;
    }
    Ok(())
}
