//! What a process is ready for in its turn, by what stands first in it: it waits, steps, or enters a recovery block.

ghost use Rattle.std.specs.Prelude.{◌≡◌, ◌+◌, ◌<◌, ◌≤◌, length, slice_get, Some};
ghost use Rattle.rb_world.specs.Kind.{SendsOn};
ghost use Rattle.rb_world.specs.Slots.{Slots, slot_of};
ghost use Rattle.rb_code.specs.Instructions.Plain.{Code as Plain, code as plain};
ghost use Rattle.rb_code.specs.SoundCode.Sound.{IsReceiver};
ghost use Rattle.rb_code.specs.WordMachine.Turn.{want};
ghost use Rattle.rb_proc.specs.Process.{Seen};
ghost use Rattle.rb_proc.specs.Sees.{AreSized};
ghost use Rattle.rb_recovery.specs.Channels.{AreNumbered, NoneFell};
ghost use Rattle.rb_recovery.specs.Innermost.{WantsThere};
ghost use Rattle.rb_ready.specs.Readiness.{IsEntryReady, IsReadyAt, ReceivesThere};
ghost use Rattle.rb_ready.specs.Receipts.{is_receipt_that_waits, receipt};

use rb_base::Steps;
use rb_code::Code;
use rb_mail::Mails;
use rb_proc::{Proc, Wanted};
use rb_recovery::channels::{has_room, message_there};
use std::sync::ledger::Ledger;

/// What a process is ready for in its turn.
#[derive(Clone, Copy)]
pub enum ReadyFor {
    /// For nothing: it is done.
    Idle,
    /// It waits for room or for a message.
    Waits,
    /// For the entry of a recovery block.
    Enters(u32),
    /// For a step, with the message that it is given, if it is given one.
    Steps(Option<i64>),
}

/// What process p is ready for, by what it wants: for at most three ticks, and for none where it is to enter a block.
#[inline(always)]
pub fn ready<L: Ledger>(
    code: &Code,
    procs: &[Proc<L>],
    mails: &Mails,
    p: u32,
    wanted: Wanted,
    steps: &mut Steps<L>,
) -> ReadyFor
    requires numbered { AreNumbered (plain code.now) procs.now }
    requires risen { NoneFell (plain code.now) procs.now }
    requires process { p < length procs.now }
    requires receiver { ReceivesThere (plain code.now) procs.now p }
    requires wanted { WantsThere (plain code.now) procs.now p wanted }
    requires sized { AreSized (plain code.now) mails.now }
    ensures ready { IsReadyAt (plain code.now) procs.now mails.now p result }
    ensures work { steps.new ≤ steps.old + 3 }
    ensures entry { IsEntryReady result → steps.new ≤ steps.old }
{
    match wanted {
        Wanted::Idle | Wanted::Line => ReadyFor::Idle,
        Wanted::Room(channel) => send(code, procs, p, channel, steps),
        Wanted::Message(channel) | Wanted::Maybe(channel) => {
            receive(
                code,
                procs,
                mails,
                p,
                channel,
                waits_for_message(wanted),
                steps,
            )
        }
        Wanted::Entry(block) => ReadyFor::Enters(block),
        Wanted::Start | Wanted::Step => ReadyFor::Steps(None),
    }
}

// Process p, at a send, waits for room.
#[inline(always)]
fn send<L: Ledger>(
    code: &Code,
    procs: &[Proc<L>],
    p: u32,
    channel: u32,
    steps: &mut Steps<L>,
) -> ReadyFor
    requires numbered { AreNumbered (plain code.now) procs.now }
    requires process { p < length procs.now }
    requires wants { (one : Seen) → slice_get procs.now p ≡ Some one → want (plain code.now) one.process.state ≡ SendsOn channel }
    ensures ready { (slots : Slots) → IsReadyAt (plain code.now) procs.now slots p result }
    ensures work { steps.new ≤ steps.old + 2 }
{
    if has_room(code, procs, channel, steps) {
        ReadyFor::Steps(None)
    } else {
        ReadyFor::Waits
    }
}

// Process p, at a receipt, is ready where a message is there, which it is given, and without one where it does not wait for one.
#[inline(always)]
fn receive<L: Ledger>(
    code: &Code,
    procs: &[Proc<L>],
    mails: &Mails,
    p: u32,
    channel: u32,
    waits: bool,
    steps: &mut Steps<L>,
) -> ReadyFor
    requires numbered { AreNumbered (plain code.now) procs.now }
    requires risen { NoneFell (plain code.now) procs.now }
    requires process { p < length procs.now }
    requires receiver { IsReceiver (slice_get (plain code.now).channels channel) p }
    requires wants { (one : Seen) → slice_get procs.now p ≡ Some one → want (plain code.now) one.process.state ≡ receipt waits channel }
    requires sized { AreSized (plain code.now) mails.now }
    ensures ready { IsReadyAt (plain code.now) procs.now mails.now p result }
    ensures work { steps.new ≤ steps.old + 3 }
{
    match message_there(code, procs, p, channel, steps) {
        Some(number) => ReadyFor::Steps(Some(message_at(mails, channel, number))),
        None if waits => ReadyFor::Waits,
        None => ReadyFor::Steps(None),
    }
}

// Whether who wants this waits for a message.
#[inline(always)]
fn waits_for_message(wanted: Wanted) -> bool
    ensures { result ≡ is_receipt_that_waits wanted }
{
    matches!(wanted, Wanted::Message(_))
}

/// The value in the slot of a message, by its number, which counts from 0; and 0 without slots.
#[inline(always)]
pub fn message_at(mails: &Mails, channel: u32, number: u64) -> i64
    ensures { (c : Plain) → AreSized c mails.now → slot_of c.channels mails.now channel number ≡ result }
{
    if (channel as usize) < mails.len() {
        mails.get(channel as usize, number)
    } else {
        0
    }
}
