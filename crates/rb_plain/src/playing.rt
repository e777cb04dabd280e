//! All turns of a record, taken one after another: once to see whether each of them can be taken, and once to print.

ghost use Rattle.std.specs.Prelude.{◌≡◌, ◌≤◌, length, [], None, IfOk, OnOk, Some};
ghost use Rattle.std.specs.List.{flat_map};
ghost use Rattle.rb_syntax.specs.Plain.{process_declaration, tree};
ghost use Rattle.rb_outside.specs.Puts.{Puts};
ghost use Rattle.rb_trace.specs.Naming.{naming};
ghost use Rattle.rb_trace.specs.Report.{out_line};
ghost use Rattle.rb_world.specs.Text.{out_lines};
ghost use Rattle.rb_world.specs.Turn.{freed, freed_lines};
ghost use Rattle.rb_world.specs.World.{settled, with_each};
ghost use Rattle.rb_meaning.specs.Meaning.{opening_state};
ghost use Rattle.rb_plain.specs.Members.{HasMembers};
ghost use Rattle.rb_plain.specs.Played.{outs_in, played, stuck_in, unkept_opening, world_in, Rehearses, Writes};
ghost use Rattle.rb_levels.specs.Taken.{TakesTurn};
ghost use Rattle.rb_levels.specs.Worlds.{moved_world, process_of, unkept_kind, world_of};

use crate::turn::take_turn;
use rb_base::{Kept, Memory, Names, Nested};
use rb_levels::{PlainAnswer, Process};
use rb_outside::{Failed, Sink};
use rb_syntax::{Process as Declaration, Program};
use rb_trace::write_out;
use rb_walk::State;
use std::alloc::Global;

/// The processes of a program before the first turn.
pub(crate) fn opening<'t, 'a>(
    alloc: Global,
    program: &'t Program<'a>,
) -> Result<Vec<Process<'t, 'a>>, Memory>
    ensures { IfOk result (λ processes. world_of (tree program.now) processes.items ≡ unkept_opening (tree program.now)) }
{
    let mut processes = Vec::with_capacity(alloc, program.processes.len())?;
    for (number, declared) in program.processes.iter().enumerate() {
        processes.push_reserved(opened(alloc, program, number, declared)?);
    }
    Ok(processes)
}

// A process before the first turn.
fn opened<'t, 'a>(
    alloc: Global,
    program: &'t Program<'a>,
    number: usize,
    declared: &'t Declaration<'a>,
) -> Result<Process<'t, 'a>, Memory>
    ensures { IfOk result
        (λ process. process_of process
        ≡ settled (unkept_kind (tree program.now)) (opening_state (tree program.now) number (process_declaration declared.now)) []) }
{
    let mut process = Process {
        state: State::new(alloc, program, number, declared)?,
        levels: Vec::new(alloc),
        at_line: false,
        is_done: false,
    };
    process.settle(program);
    Ok(process)
}

/// Takes all turns of a record, and prints nothing: whether each of them can be taken, or else which is stuck.
pub(crate) fn rehearse(
    alloc: Global,
    program: &Program<'_>,
    nested: &Nested,
    turns: &[Kept],
) -> Result<(), PlainAnswer>
    requires { HasMembers (tree program.now) nested.now }
    ensures { Rehearses (stuck_in (played (tree program.now) turns.now (unkept_opening (tree program.now)))) result }
{
    let mut processes = opening(alloc, program)?;
    take_all(alloc, program, nested, turns, &mut processes)
}

// Takes these turns one after another.
fn take_all<'t, 'a>(
    alloc: Global,
    program: &'t Program<'a>,
    nested: &Nested,
    turns: &[Kept],
    processes: &mut [Process<'t, 'a>],
) -> Result<(), PlainAnswer>
    requires { HasMembers (tree program.now) nested.now }
    ensures { Rehearses (stuck_in (played (tree program.now) turns.now (world_of (tree program.now) processes.old))) result }
{
    for kept in turns {
        take(alloc, program, nested, processes, *kept)?;
        free_all(program, processes);
    }
    Ok(())
}

/// Takes all turns of a record, each of which can be taken, and writes what they print.
pub(crate) fn play<'t, 'a, S: Sink>(
    alloc: Global,
    program: &'t Program<'a>,
    nested: &Nested,
    names: &Names,
    turns: &[Kept],
    processes: &mut [Process<'t, 'a>],
    out: &mut S,
) -> Result<(), PlainAnswer>
    requires members { HasMembers (tree program.now) nested.now }
    requires few { length processes.old ≤ length names.now.processes.items }
    requires goes { stuck_in (played (tree program.now) turns.now (world_of (tree program.now) processes.old)) ≡ None }
    ensures text { Writes
        (outs_in (naming names.now) (played (tree program.now) turns.now (world_of (tree program.now) processes.old)))
        (S.written out.old) (S.written out.new) (S.faults out.old) (S.faults out.new) result }
    ensures ends { OnOk result
        (world_in (played (tree program.now) turns.now (world_of (tree program.now) processes.old))
        ≡ Some (world_of (tree program.now) processes.new)) }
{
    for kept in turns {
        take(alloc, program, nested, processes, *kept)?;
        write_freed(program, names, kept.turn, processes, out)?;
        free_all(program, processes);
    }
    Ok(())
}

// Takes a kept turn. Where it is stuck, its number is answered.
fn take<'t, 'a>(
    alloc: Global,
    program: &'t Program<'a>,
    nested: &Nested,
    processes: &mut [Process<'t, 'a>],
    kept: Kept,
) -> Result<(), PlainAnswer>
    requires { HasMembers (tree program.now) nested.now }
    ensures { TakesTurn kept.turn
        (moved_world (tree program.now) kept (world_of (tree program.now) processes.old))
        (world_of (tree program.now) processes.new) result }
{
    PlainAnswer::of_turn(
        take_turn(alloc, program, nested, processes, kept),
        kept.turn,
    )
}

/// No process without an open level holds a line any more.
pub(crate) fn free_all<'a>(program: &Program<'a>, processes: &mut [Process<'_, 'a>])
    ensures { world_of (tree program.now) processes.new
        ≡ with_each (freed (unkept_kind (tree program.now))) (world_of (tree program.now) processes.old) }
{
    for process in processes {
        process.free(program);
    }
}

// Writes the lines that each process prints at the end of a turn, in the order of the processes.
fn write_freed<'a, S: Sink>(
    program: &Program<'a>,
    names: &Names,
    turn: u32,
    processes: &[Process<'_, 'a>],
    out: &mut S,
) -> Result<(), Failed>
    requires { length processes.now ≤ length names.now.processes.items }
    ensures { Puts
        (out_lines (naming names.now) turn 0 (freed_lines (unkept_kind (tree program.now)) (world_of (tree program.now) processes.now)))
        (S.written out.old) (S.written out.new) (S.faults out.old) (S.faults out.new) result }
{
    for (p, process) in processes.iter().enumerate() {
        write_lines(out, turn, p as u32, process.freed_lines(program), names)?;
    }
    Ok(())
}

// Writes the lines that a process prints at the end of a turn.
fn write_lines<S: Sink>(
    out: &mut S,
    turn: u32,
    process: u32,
    lines: &[Vec<u8>],
    names: &Names,
) -> Result<(), Failed>
    ensures { Puts (flat_map (λ line. out_line (naming names.now) turn process line.items) lines.now) (S.written out.old)
        (S.written out.new) (S.faults out.old) (S.faults out.new) result }
{
    for line in lines {
        write_out(out, turn, process, line, names)?;
    }
    Ok(())
}
