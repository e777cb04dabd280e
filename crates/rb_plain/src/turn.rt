//! One kept turn of a plain run: what stands first decides, as in a run; where a run would idle, wait or trap, the plain run is stuck.

ghost use Rattle.std.specs.Prelude.{◌≡◌, ◌<◌, length, slice_get, Some};
ghost use Rattle.rb_syntax.specs.Plain.{command, recovery_block, tree};
ghost use Rattle.rb_meaning.specs.State.{Perform, TestOf};
ghost use Rattle.rb_walk.specs.Items.{IsFirst, StandsFirst};
ghost use Rattle.rb_plain.specs.Members.{HasMembers};
ghost use Rattle.rb_plain.specs.Turns.{acted_world, may_give, IsFirstReady};
ghost use Rattle.rb_levels.specs.Moves.{IsReady};
ghost use Rattle.rb_walk.specs.States.{state_of};
ghost use Rattle.rb_levels.specs.Worlds.{moved_world, process_of, world_of, MovesTo};
ghost use Rattle.rb_levels.specs.declared.process.Process.{Process as Here};

use crate::channels::{has_room, message_there};
use crate::entry::enter;
use crate::test_line::accept;
use crate::want::{Want, want_of};
use rb_base::{Kept, Nested};
use rb_levels::Process;
use rb_syntax::{Program, Recovery, Statement};
use rb_walk::Halt;
use rb_walk::items::First;
use std::alloc::Global;

/// Takes a kept turn. After it held lines are not yet released.
pub(crate) fn take_turn<'t, 'a>(
    alloc: Global,
    program: &'t Program<'a>,
    nested: &Nested,
    processes: &mut [Process<'t, 'a>],
    kept: Kept,
) -> Result<(), Halt>
    requires { HasMembers (tree program.now) nested.now }
    ensures { MovesTo (moved_world (tree program.now) kept (world_of (tree program.now) processes.old))
        (world_of (tree program.now) processes.new) result }
{
    match first_ready(processes, kept.process as usize) {
        Some(first) => act(alloc, program, nested, processes, kept, first),
        None => Err(Halt::Stuck),
    }
}

// What stands first in process p, if it is there and runs, away from every test line.
fn first_ready<'t, 'a>(processes: &[Process<'t, 'a>], p: usize) -> Option<First<'t, 'a>>
    ensures { IsFirstReady (slice_get processes.now p) result }
{
    if p >= processes.len() {
        return None;
    }
    let process = &processes[p];
    if process.is_done || process.at_line {
        return None;
    }
    Some(process.state.first())
}

// A running process, away from every test line, of which this stands first.
fn act<'t, 'a>(
    alloc: Global,
    program: &'t Program<'a>,
    nested: &Nested,
    processes: &mut [Process<'t, 'a>],
    kept: Kept,
    first: First<'t, 'a>,
) -> Result<(), Halt>
    requires members { HasMembers (tree program.now) nested.now }
    requires process { kept.process < length processes.old }
    requires first { (one : Here) → slice_get processes.old kept.process ≡ Some one → IsReady one × IsFirst (state_of one.state).items first }
    ensures { (one : Here) → slice_get processes.old kept.process ≡ Some one →
        MovesTo (acted_world (tree program.now) kept (process_of one) (world_of (tree program.now) processes.old)) (world_of (tree program.now) processes.new) result }
{
    if !may_give(first, kept.alternate) {
        return Err(Halt::Stuck);
    }
    let p = kept.process as usize;
    match first {
        First::Nothing => Err(Halt::Stuck),
        First::Start(block) => processes[p].start(alloc, program, block, kept),
        First::Statement(statement) => perform(alloc, program, processes, kept, statement),
        First::Test(block) => judge(program, nested, processes, kept, block),
        // Nothing that is settled stands so; a step takes such an end away, and nothing else.
        First::BlockEnd | First::CallEnd => {
            processes[p].settle(program);
            Ok(())
        }
    }
}

// Whether the record may give this alternate, or none, where this stands first: an alternate is given for a start alone.
fn may_give(first: First<'_, '_>, alternate: u32) -> bool
    ensures { result ≡ may_give first.entry alternate }
{
    match first {
        First::Start(_) => true,
        _ => alternate == 0,
    }
}

// A statement, with the room or the message that it asks for; stuck where a run would wait.
fn perform<'t, 'a>(
    alloc: Global,
    program: &'t Program<'a>,
    processes: &mut [Process<'t, 'a>],
    kept: Kept,
    statement: &'t Statement<'a>,
) -> Result<(), Halt>
    requires alternate { kept.alternate ≡ 0 }
    requires process { kept.process < length processes.old }
    requires first { (one : Here) → slice_get processes.old kept.process ≡ Some one
        → IsReady one × StandsFirst (Perform (command statement.now)) (state_of one.state).items }
    ensures { (one : Here) → slice_get processes.old kept.process ≡ Some one →
        MovesTo (acted_world (tree program.now) kept (process_of one) (world_of (tree program.now) processes.old)) (world_of (tree program.now) processes.new) result }
{
    let p = kept.process as usize;
    match want_of(program, statement) {
        Want::Level(block) => enter(alloc, program, &mut processes[p], block),
        Want::Nothing => processes[p].perform(alloc, program, None, statement),
        Want::Room(channel) => {
            if has_room(program, processes, channel) {
                processes[p].perform(alloc, program, None, statement)
            } else {
                Err(Halt::Stuck)
            }
        }
        Want::Message(channel) => {
            let message = message_there(program, processes, channel);
            if message.is_none() {
                return Err(Halt::Stuck);
            }
            processes[p].perform(alloc, program, message, statement)
        }
        Want::MessageOrElse(channel) => {
            let message = message_there(program, processes, channel);
            processes[p].perform(alloc, program, message, statement)
        }
    }
}

// The acceptance test of the innermost level. Without a level the turn changes nothing.
fn judge<'a>(
    program: &Program<'a>,
    nested: &Nested,
    processes: &mut [Process<'_, 'a>],
    kept: Kept,
    block: &Recovery<'a>,
) -> Result<(), Halt>
    requires members { HasMembers (tree program.now) nested.now }
    requires alternate { kept.alternate ≡ 0 }
    requires process { kept.process < length processes.old }
    requires first { (one : Here) → slice_get processes.old kept.process ≡ Some one
        → IsReady one × StandsFirst (TestOf (recovery_block block.now)) (state_of one.state).items }
    ensures { (one : Here) → slice_get processes.old kept.process ≡ Some one →
        MovesTo (acted_world (tree program.now) kept (process_of one) (world_of (tree program.now) processes.old)) (world_of (tree program.now) processes.new) result }
{
    let p = kept.process as usize;
    match processes[p].judge(block) {
        Ok(()) => {
            accept(program, nested, processes, p);
            Ok(())
        }
        Err(halt) => Err(halt),
    }
}
