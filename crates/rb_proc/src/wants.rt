//! What a process wants, by the instructions at which it stands.

ghost use Rattle.std.specs.Prelude.{◌≡◌, ◌+◌, ◌<◌, ◌≤◌, ◌^◌, length, slice_get, IfSome};
ghost use Rattle.rb_world.specs.Kind.{Enters};
ghost use Rattle.rb_world.specs.World.{status_at};
ghost use Rattle.rb_code.specs.Instructions.Plain.{code as plain};
ghost use Rattle.rb_code.specs.WordMachine.Turn.{enters, wants_by, wants_there};
ghost use Rattle.rb_code.specs.WordMachine.WordKind.{cursor_in};
ghost use Rattle.rb_proc.specs.Process.{wanted_by};
ghost use Rattle.rb_recoverable.specs.Contents.{facts_of as facts};
ghost use Rattle.rb_proc.specs.Executable.{HasNext, IsExecutable, IsTurnAt, LandsAt, ends};
ghost use Rattle.rb_proc.specs.Given.{alternate_by};
ghost use Rattle.rb_proc.specs.Runs.{done_or_running};
ghost use Rattle.rb_proc.specs.Statuses.{status_of};

use crate::answers::{ProcessStatus, Wanted};
use crate::channels::cursor_place;
use rb_base::Steps;
use rb_code::{Code, Instr};
use rb_recoverable::recoverable::{BlockFacts, Recoverable, natural};
use std::sync::ledger::Ledger;

/// What the process wants that runs and stands at an address, and at no test line.
#[inline(always)]
pub fn want_at(code: &Code, at: u32) -> Wanted
    requires { length code.now.instrs.items < 2 ^ 32 }
    ensures { result ≡ wanted_by (wants_there (plain code.now) (slice_get (plain code.now).instrs at) (slice_get (plain code.now).instrs (at + 1))) }
{
    match code.instrs.get(at as usize) {
        None => Wanted::Step,
        Some(Instr::Done) => Wanted::Idle,
        Some(_) => match code.instrs.get(at as usize + 1) {
            None => Wanted::Step,
            Some(instr) => want_of(code, *instr),
        },
    }
}

/// The same where an instruction is there, and another one behind it unless the process is done.
#[inline(always)]
pub fn want_next(code: &Code, at: u32) -> Wanted
    requires { HasNext (plain code.now) at }
    ensures { result ≡ wanted_by (wants_there (plain code.now) (slice_get (plain code.now).instrs at) (slice_get (plain code.now).instrs (at + 1))) }
{
    if ends(&code.instrs[at as usize]) {
        Wanted::Idle
    } else {
        want_of(code, code.instrs[at as usize + 1])
    }
}

// Whether a process that stands at an instruction is done.
#[inline(always)]
fn ends(instr: &Instr) -> bool
    ensures { result ≡ ends instr.now }
{
    match *instr {
        Instr::Done => true,
        _ => false,
    }
}

// What the instruction behind a `turn` asks of it.
#[inline(always)]
fn want_of(code: &Code, instr: Instr) -> Wanted
    ensures { result ≡ wanted_by (wants_by (plain code.now) instr) }
{
    match instr {
        Instr::Room(channel) => Wanted::Room(channel),
        Instr::There(channel) => Wanted::Message(channel),
        Instr::Absent(channel, _) => Wanted::Maybe(channel),
        Instr::Enter(block) if (block as usize) < code.blocks.len() => Wanted::Entry(block),
        Instr::Start(_) => Wanted::Start,
        _ => Wanted::Step,
    }
}

/// Whether a process that stands at an address is done.
pub fn status_here(code: &Code, at: u32) -> ProcessStatus
    ensures { status_of result
        ≡ status_at (wants_there (plain code.now) (slice_get (plain code.now).instrs at) (slice_get (plain code.now).instrs (at + 1))) }
{
    match code.instrs.get(at as usize) {
        Some(Instr::Done) => ProcessStatus::Finished,
        _ => ProcessStatus::Running,
    }
}

/// How a process stands where its turn is over.
#[inline(always)]
pub fn status_by(done: bool) -> ProcessStatus
    ensures { status_of result ≡ done_or_running done }
{
    if done {
        ProcessStatus::Finished
    } else {
        ProcessStatus::Running
    }
}

/// The `turn` to which the jump leads that stands at an address, if that is what stands there.
#[inline(always)]
pub fn landing(code: &Code, at: u32) -> Option<u32>
    ensures { IfSome result (LandsAt (plain code.now) at) }
{
    match code.instrs.get(at as usize) {
        Some(Instr::Jump(to)) => turn_at(code, *to),
        _ => None,
    }
}

// An address, if a `turn` stands there.
#[inline(always)]
fn turn_at(code: &Code, at: u32) -> Option<u32>
    ensures { IfSome result (IsTurnAt (plain code.now) at) }
{
    match code.instrs.get(at as usize) {
        Some(Instr::Turn) => Some(at),
        _ => None,
    }
}

/// The alternate that a step is given.
pub fn alternate_of<L: Ledger>(wanted: Wanted, memory: &Recoverable<L>) -> u32
    ensures { result ≡ alternate_by wanted memory.now.levels }
{
    match wanted {
        Wanted::Start => memory.alternate(),
        _ => 0,
    }
}

/// The cursor of a channel.
pub fn cursor_of<L: Ledger>(
    code: &Code,
    process: u32,
    channel: u32,
    memory: &Recoverable<L>,
    steps: &mut Steps<L>,
) -> u64
    requires process { process < length code.now.processes.items }
    ensures cursor { result ≡ cursor_in (plain code.now) process memory.now.words channel }
    ensures ticks { steps.new ≤ steps.old + 1 }
    ensures rise { steps.old ≤ steps.new }
{
    let place = cursor_place(code, process, channel);
    if place < memory.height() as usize {
        natural(memory.load(place, steps))
    } else {
        0
    }
}

/// What is known of a recovery block at its entry.
#[inline(always)]
pub fn facts_of(code: &Code, block: u32) -> BlockFacts
    requires code { IsExecutable (plain code.now) }
    requires block { block < length code.now.blocks.items }
    ensures { Enters (facts result) ≡ enters block (slice_get (plain code.now).blocks block) }
{
    let one = &code.blocks[block as usize];
    BlockFacts {
        number: block,
        line: one.line,
        conversation: one.conversation,
        bound: one.bound,
        alternates: one.alternates.len() as u32,
    }
}
