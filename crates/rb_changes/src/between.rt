//! Channels and conversations, where they are others now.

ghost use Rattle.std.specs.Prelude.{◌≡◌};
ghost use Rattle.rb_outside.specs.Puts.{Puts};
ghost use Rattle.rb_changes.specs.Changes.{channel_changes, is_same_channel, is_same_talk, numbers_change, message_change, talk_changes};
ghost use Rattle.rb_changes.specs.Noted.{talk_of};

use crate::change::{write_alternate, write_broken, write_message, write_numbers};
use crate::noted::{Numbers, TalkNoted};
use rb_outside::{Failed, Sink};

/// Writes the numbers of a channel, if one of them is another, and the value that was sent last, if more were sent.
pub fn write_channel<'w, S: Sink>(
    out: &mut S,
    turn: u32,
    channel: &'w [u8],
    was: Numbers,
    now: Numbers,
    last: i64,
) -> Result<(), Failed>
    ensures { Puts (channel_changes turn channel.now was (record { numbers = now; last = last })) (S.written out.old) (S.written out.new)
        (S.faults out.old) (S.faults out.new) result }
{
    write_if_others(out, turn, channel, was, now)?;
    write_if_sent(out, turn, channel, was.sent, now.sent, last)
}

fn write_if_others<'w, S: Sink>(
    out: &mut S,
    turn: u32,
    channel: &'w [u8],
    was: Numbers,
    now: Numbers,
) -> Result<(), Failed>
    ensures { Puts (numbers_change turn channel.now was now) (S.written out.old) (S.written out.new) (S.faults out.old) (S.faults out.new) result }
{
    if is_same_numbers(was, now) {
        Ok(())
    } else {
        write_numbers(out, turn, channel, now)
    }
}

fn is_same_numbers(was: Numbers, now: Numbers) -> bool
    ensures { result ≡ is_same_channel was now }
{
    was.sent == now.sent && was.taken == now.taken && was.seen == now.seen && was.free == now.free
}

fn write_if_sent<'w, S: Sink>(
    out: &mut S,
    turn: u32,
    channel: &'w [u8],
    was: u64,
    now: u64,
    last: i64,
) -> Result<(), Failed>
    ensures { Puts (message_change turn channel.now was now last) (S.written out.old) (S.written out.new) (S.faults out.old)
        (S.faults out.new) result }
{
    if was < now {
        write_message(out, turn, channel, now, last)
    } else {
        Ok(())
    }
}

/// Writes at which alternate a conversation is, or that it is broken, if that is another thing.
pub fn write_talk<'w, S: Sink>(
    out: &mut S,
    turn: u32,
    name: &'w [u8],
    was: TalkNoted,
    now: TalkNoted,
) -> Result<(), Failed>
    ensures { Puts (talk_changes turn name.now (talk_of was) (talk_of now)) (S.written out.old) (S.written out.new) (S.faults out.old)
        (S.faults out.new) result }
{
    if is_same(was, now) {
        Ok(())
    } else if now.is_broken {
        write_broken(out, turn, name)
    } else {
        write_alternate(out, turn, name, now.alternate)
    }
}

fn is_same(was: TalkNoted, now: TalkNoted) -> bool
    ensures { result ≡ is_same_talk (talk_of was) (talk_of now) }
{
    was.alternate == now.alternate && was.is_broken == now.is_broken
}
