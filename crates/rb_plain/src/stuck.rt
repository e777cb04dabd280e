//! Why a plain run is stuck at a turn: what stands first is asked case by case, as a turn is taken, and nothing changes.

ghost use Rattle.std.specs.Prelude.{◌≡◌, ◌<◌, length, IfOk};
ghost use Rattle.rb_base.specs.declared.kept.Kept.{Kept as PlainTurn};
ghost use Rattle.rb_syntax.specs.Plain.{command, tree};
ghost use Rattle.rb_world.specs.Plain.{plain_turn};
ghost use Rattle.rb_meaning.specs.State.{Perform};
ghost use Rattle.rb_meaning.specs.Step.{wants_first};
ghost use Rattle.rb_walk.specs.Items.{IsFirst, StandsFirst};
ghost use Rattle.rb_walk.specs.States.{state_of};
ghost use Rattle.rb_plain.specs.Members.{HasMembers};
ghost use Rattle.rb_levels.specs.Moves.{PlainProcess};
ghost use Rattle.rb_levels.specs.Causes.{cause_of_process, cause_of_want, receipt_cause, send_cause, start_cause, unless_given};
ghost use Rattle.rb_plain.specs.Stuck.{stuck_among, stuck_turn, turn_cause, Advances};
ghost use Rattle.rb_levels.specs.Worlds.{process_of, status_of, unkept_kind, world_of};

use crate::channels::{has_room, message_there};
use crate::playing::{free_all, opening};
use crate::turn::take_turn;
use crate::want::{Want, want_of};
use rb_base::{Kept, Memory, Nested};
use rb_levels::{Process, StuckCause};
use rb_record::Record;
use rb_syntax::{Program, Statement};
use rb_walk::Halt;
use rb_walk::items::First;
use std::alloc::Global;

/// A kept turn that can't be taken, and why.
#[derive(Clone, Copy)]
pub struct StuckTurn {
    pub kept: Kept,
    pub cause: StuckCause,
}

/// Why the plain run of a record can't take its turn of this number, with that turn; nothing where the record has no such turn, or is
/// stuck before it.
pub fn stuck_cause(
    alloc: Global,
    program: &Program<'_>,
    nested: &Nested,
    kept: &Record,
    turn: u32,
) -> Result<Option<StuckTurn>, Memory>
    requires members { HasMembers (tree program.now) nested.now }
    ensures { IfOk result (λ found. found ≡ stuck_turn (tree program.now) turn kept.now) }
{
    let mut processes = opening(alloc, program)?;
    stuck_among(alloc, program, nested, kept.turns(), turn, &mut processes)
}

// Takes the turns before the one of this number, and tells why that one can't be taken.
fn stuck_among<'t, 'a>(
    alloc: Global,
    program: &'t Program<'a>,
    nested: &Nested,
    turns: &[Kept],
    turn: u32,
    processes: &mut [Process<'t, 'a>],
) -> Result<Option<StuckTurn>, Memory>
    requires members { HasMembers (tree program.now) nested.now }
    ensures { IfOk result (λ found. found ≡ stuck_among (tree program.now) turn turns.now (world_of (tree program.now) processes.old)) }
{
    for kept in turns {
        if kept.turn == turn {
            let cause = turn_cause(program, processes, *kept);
            return Ok(Some(StuckTurn { kept: *kept, cause }));
        }
        if !advance(alloc, program, nested, processes, *kept)? {
            return Ok(None);
        }
    }
    Ok(None)
}

// Takes a turn, and releases the lines that it frees; false where it is stuck.
fn advance<'t, 'a>(
    alloc: Global,
    program: &'t Program<'a>,
    nested: &Nested,
    processes: &mut [Process<'t, 'a>],
    kept: Kept,
) -> Result<bool, Memory>
    requires members { HasMembers (tree program.now) nested.now }
    ensures { Advances (plain_turn (unkept_kind (tree program.now)) kept (world_of (tree program.now) processes.old))
        (world_of (tree program.now) processes.new) result }
{
    match take_turn(alloc, program, nested, processes, kept) {
        Ok(()) => {
            free_all(program, processes);
            Ok(true)
        }
        Err(Halt::Stuck) => Ok(false),
        Err(Halt::Memory) => Err(Memory),
    }
}

// Why a turn can't be taken, where it can't.
fn turn_cause<'t, 'a>(
    program: &Program<'a>,
    processes: &[Process<'t, 'a>],
    kept: Kept,
) -> StuckCause
    ensures { result ≡ turn_cause (tree program.now) kept (world_of (tree program.now) processes.now) }
{
    let p = kept.process as usize;
    if p >= processes.len() {
        return StuckCause::Ended;
    }
    process_cause(program, processes, &processes[p], kept)
}

// The same of a process that is there.
fn process_cause<'t, 'a>(
    program: &Program<'a>,
    processes: &[Process<'t, 'a>],
    process: &Process<'t, 'a>,
    kept: Kept,
) -> StuckCause
    ensures { result ≡ cause_of_process (tree program.now) kept (process_of process.now) (world_of (tree program.now) processes.now)
        (status_of process.now.is_done) }
{
    match process.standing_cause() {
        Some(cause) => cause,
        None => first_cause(program, processes, process, kept, process.state.first()),
    }
}

// The same of a running process, away from every test line, of which this stands first.
fn first_cause<'t, 'a>(
    program: &Program<'a>,
    processes: &[Process<'t, 'a>],
    process: &Process<'t, 'a>,
    kept: Kept,
    first: First<'t, 'a>,
) -> StuckCause
    requires { IsFirst (state_of process.now.state).items first }
    ensures { result ≡ cause_of_want (tree program.now) kept (process_of process.now) (world_of (tree program.now) processes.now)
        (wants_first (tree program.now) (state_of process.now.state).items) }
{
    match first {
        First::Nothing => StuckCause::Ended,
        First::Start(_) => start_cause(process, kept),
        First::Statement(statement) => {
            unless_given(kept, statement_cause(program, processes, statement))
        }
        First::Test(_) => unless_given(kept, StuckCause::TestFails),
        // Nothing that is settled stands so.
        First::BlockEnd | First::CallEnd => unless_given(kept, StuckCause::Traps),
    }
}

// Why a recovery block can't start with the alternate that the turn gives.
fn start_cause(process: &Process<'_, '_>, kept: Kept) -> StuckCause
    ensures { result ≡ start_cause kept (process_of process.now) }
{
    if process.has_alternate(kept.alternate) {
        StuckCause::Traps
    } else {
        StuckCause::OtherAlternate(process.alternates())
    }
}

// Nothing starts where a turn gives an alternate and this would be the cause of another.
fn unless_given(kept: Kept, cause: StuckCause) -> StuckCause
    ensures { result ≡ unless_given kept cause }
{
    if kept.alternate == 0 {
        cause
    } else {
        StuckCause::NothingStarts
    }
}

// Why a statement that stands first can't be performed by a turn that gives no alternate.
fn statement_cause<'t, 'a>(
    program: &Program<'a>,
    processes: &[Process<'t, 'a>],
    statement: &'t Statement<'a>,
) -> StuckCause
    ensures { (kept : PlainTurn) (q : PlainProcess) → StandsFirst (Perform (command statement.now)) q.state.items →
        unless_given kept result
        ≡ cause_of_want (tree program.now) kept q (world_of (tree program.now) processes.now) (wants_first (tree program.now) q.state.items) }
{
    match want_of(program, statement) {
        Want::Room(channel) => send_cause(channel, has_room(program, processes, channel)),
        Want::Message(channel) => {
            receipt_cause(channel, message_there(program, processes, channel))
        }
        Want::MessageOrElse(_) => StuckCause::Traps,
        Want::Level(_) => StuckCause::TooDeep,
        Want::Nothing => StuckCause::Traps,
    }
}

// Why a send on this channel is stuck.
fn send_cause(channel: usize, has_room: bool) -> StuckCause
    ensures { result ≡ send_cause channel has_room }
{
    if has_room {
        StuckCause::Traps
    } else {
        StuckCause::NoRoom(channel)
    }
}

// Why a receipt on this channel is stuck.
fn receipt_cause(channel: usize, message: Option<i64>) -> StuckCause
    ensures { result ≡ receipt_cause channel message }
{
    match message {
        Some(_) => StuckCause::Traps,
        None => StuckCause::NoMessage(channel),
    }
}
