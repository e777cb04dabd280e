//! Instructions on channels and lines.

ghost use Rattle.std.specs.Prelude.{◌≡◌, ℕ, ◌+◌, ◌-◌, ◌<◌, ◌≤◌, ◌^◌, ◌+ℤ◌, ℤ, pos, List, [], ◌∷◌, map, length, Option};
ghost use Rattle.rb_base.specs.declared.limits.TheConstants.{MOST_OPERANDS};
ghost use Rattle.rb_meaning.specs.Environment.{natural as count};
ghost use Rattle.rb_world.specs.Slots.{Slots, put_slot};
ghost use Rattle.rb_code.specs.Instructions.Plain.{Code as Plain, code as plain};
ghost use Rattle.rb_code.specs.WordMachine.Workspace.{Counting as Counts, cursor_place, held_place, part_of, place_among, variables_place, word_at};
ghost use Rattle.rb_code.specs.WordMachine.Act.{Going, Sight as Seen, if_there, joined_pieces, on_top, printed, put, risen};
ghost use Rattle.rb_code.specs.SoundCode.Safe.{IsThere};
ghost use Rattle.rb_operands.specs.Outcomes.{outcome_of};
ghost use Rattle.rb_proc.specs.Outcomes.{Keeps, mem};
ghost use Rattle.rb_operands.specs.Pieces.{AreTexts, piece_text};
ghost use Rattle.rb_proc.specs.Sees.{AreSized};

use rb_base::{Cause, Steps, Text};
use rb_code::Code;
use rb_mail::Mails;
use rb_operands::Next;
use rb_operands::line::Line;
use rb_operands::operands::Operands;
use rb_recoverable::recoverable::{Recoverable, natural};
use std::sync::ledger::Ledger;

/// The place of a channel's cursor among the words of a process.
pub fn cursor_place(code: &Code, process: u32, channel: u32) -> usize
    requires { process < length code.now.processes.items }
    ensures place { result ≡ cursor_place (part_of (plain code.now) process) channel }
    ensures some { 0 < result }
{
    1 + place_among(&code.processes[process as usize].channels, channel)
}

/// Where the words of the variables of a process begin.
pub fn first_variable(code: &Code, process: u32) -> usize
    requires { process < length code.now.processes.items }
    ensures place { result ≡ variables_place (part_of (plain code.now) process) }
    ensures small { result ≤ 2 ^ 63 }
{
    1 + code.processes[process as usize].channels.len()
}

// A channel's place in a list of channels, or its length.
fn place_among(channels: &[u32], channel: u32) -> usize
    ensures place { result ≡ place_among channel channels.now }
    ensures within { result ≤ length channels.now }
{
    for (place, other) in channels.iter().enumerate() {
        if *other == channel {
            return place;
        }
    }
    channels.len()
}

// A cursor, one further.
fn one_further(cursor: i64) -> i64
    requires { count cursor < 2 ^ 32 - 1 }
    ensures { result ≡ cursor +ℤ pos 1 }
{
    cursor + 1
}

// Puts a value into the slot of a message, if the channel is there.
fn put_mail(mails: &mut Mails, channel: u32, index: u64, value: i64)
    ensures put { (c : Plain) → AreSized c mails.old → mails.new ≡ put_slot c.channels channel index value mails.old }
    ensures sized { map length mails.new ≡ map length mails.old }
{
    if (channel as usize) < mails.len() {
        mails.put(channel as usize, index, value);
    }
}

/// Pops a value, and appends it to a channel.
#[inline(always)]
pub fn put_value<L: Ledger>(
    code: &Code,
    process: u32,
    channel: u32,
    at: usize,
    operands: &mut Operands<'_>,
    memory: &mut Recoverable<L>,
    mails: &mut Mails,
    steps: &mut Steps<L>,
) -> Next
    requires at { at + 1 < 2 ^ 32 }
    requires process { process < length code.now.processes.items }
    requires one { 0 < length operands.old }
    requires there { cursor_place (part_of (plain code.now) process) channel < length memory.old.words }
    requires low { count (word_at memory.old.words (cursor_place (part_of (plain code.now) process) channel)) < 2 ^ 32 - 1 }
    requires sized { AreSized (plain code.now) mails.old }
    ensures moved { (see : Seen) (pieces : List (List ℕ)) (counters : List (Option Counts)) → see.process ≡ process
        → outcome_of result at operands.new (mem memory.new pieces counters mails.new)
        ≡ on_top operands.old
        (λ v rest. Going (at + 1) rest (put (plain code.now) see channel v (mem memory.old pieces counters mails.old))) }
    ensures kept { Keeps result memory.old memory.new mails.old mails.new }
    ensures sized { map length mails.new ≡ map length mails.old }
    ensures ticks { steps.new ≤ steps.old + 3 }
{
    let place = cursor_place(code, process, channel);
    let value = operands.pop();
    let cursor = memory.load(place, steps);
    put_mail(mails, channel, natural(cursor), value);
    memory.store(place, one_further(cursor), steps);
    Next::Go(at + 1)
}

/// Takes the message of a channel that is there, and pushes it.
#[inline(always)]
pub fn take_message<L: Ledger>(
    code: &Code,
    process: u32,
    message: Option<i64>,
    channel: u32,
    at: usize,
    operands: &mut Operands<'_>,
    memory: &mut Recoverable<L>,
    steps: &mut Steps<L>,
) -> Next
    requires at { at + 1 < 2 ^ 32 }
    requires process { process < length code.now.processes.items }
    requires room { length operands.old < MOST_OPERANDS }
    requires message { IsThere message }
    requires there { cursor_place (part_of (plain code.now) process) channel < length memory.old.words }
    requires low { count (word_at memory.old.words (cursor_place (part_of (plain code.now) process) channel)) < 2 ^ 32 - 1 }
    ensures moved { (see : Seen) (pieces : List (List ℕ)) (counters : List (Option Counts)) (slots : Slots)
        → see.process ≡ process
        → outcome_of result at operands.new (mem memory.new pieces counters slots)
        ≡ if_there message
        (λ v. Going (at + 1) (v ∷ operands.old) (risen (plain code.now) see channel (mem memory.old pieces counters slots))) }
    ensures kept { (slots : Slots) → Keeps result memory.old memory.new slots slots }
    ensures ticks { steps.new ≤ steps.old + 3 }
{
    let Some(value) = message else { unreachable!() };
    let place = cursor_place(code, process, channel);
    let cursor = memory.load(place, steps);
    memory.store(place, one_further(cursor), steps);
    operands.push(value);
    Next::Go(at + 1)
}

/// Ends the line, which is held, or the trap `hold`.
#[inline(always)]
pub fn print<L: Ledger>(
    texts: &[Text],
    at: usize,
    line: &mut Line,
    memory: &mut Recoverable<L>,
    steps: &mut Steps<L>,
) -> Next
    requires at { at + 1 < 2 ^ 32 }
    requires texts { AreTexts texts.now }
    requires none_waits { memory.old.waiting ≡ [] }
    ensures moved { (operands : List ℤ) (counters : List (Option Counts)) (slots : Slots)
        → outcome_of result at operands (mem memory.new (map (piece_text texts.now) line.new.pieces) counters slots)
        ≡ printed
        (count (word_at memory.old.words held_place) + (length (joined_pieces (map (piece_text texts.now) line.old.pieces)) + 1))
        (joined_pieces (map (piece_text texts.now) line.old.pieces))
        (mem memory.old (map (piece_text texts.now) line.old.pieces) counters slots)
        (λ later. Going (at + 1) operands later) }
    ensures kept { (slots : Slots) → Keeps result memory.old memory.new slots slots }
    ensures ticks { steps.new ≤ steps.old + 2 }
{
    line.join(texts);
    if memory.print(line.bytes(), steps) {
        Next::Go(at + 1)
    } else {
        Next::Trap(Cause::Hold)
    }
}
