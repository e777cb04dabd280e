//! What a process does in its turn: it waits, steps, enters, or is rejected since a level has used up its turns.

ghost use Rattle.std.specs.Prelude.{◌≡◌, ◌+◌, ◌*◌, ◌-◌, ◌<◌, ◌≤◌, ◌^◌, true, length, position, slice_get, Some};
ghost use Rattle.rb_world.specs.Standing.{Each};
ghost use Rattle.rb_world.specs.Turn.{acts, bounded, is_over, move, runs, turn_used};
ghost use Rattle.rb_world.specs.World.{Running, change_at};
ghost use Rattle.rb_code.specs.Instructions.Plain.{code as plain};
ghost use Rattle.rb_code.specs.WordMachine.Turn.{want};
ghost use Rattle.rb_conv.specs.Conversations.{memberships};
ghost use Rattle.rb_proc.specs.Process.{Seen};
ghost use Rattle.rb_machine.specs.AtWork.{MayAct};
ghost use Rattle.rb_machine.specs.Ends.{LeadsTo, StaysOpen, links_yet, named_yet};
ghost use Rattle.rb_recovery.specs.Links.{HasRoom};
ghost use Rattle.rb_machine.specs.Moves.{AreAtWork, MovesAt};
ghost use Rattle.rb_recovery.specs.Parts.{world};
ghost use Rattle.rb_recovery.specs.Rejections.{changed};
ghost use Rattle.rb_machine.specs.Turns.{runs_there};
ghost use Rattle.rb_recovery.specs.Work.{enters_there, looking, named_by_acts, named_in_turn, named_running, named_within};
ghost use Rattle.rb_recovery.specs.Worlds.{kind_with, processes_of};

use crate::step::take_step;
use rb_base::{Cause, Steps};
use rb_code::Code;
use rb_proc::{Proc, ProcessStatus};
use rb_ready::{ReadyFor, ready};
use rb_recovery::parts::Parts;
use std::sync::ledger::Ledger;

/// What a process does in its turn: its step, if it takes one, is taken.
#[derive(Clone, Copy)]
pub enum Move {
    /// Nothing: it is done, or there is no such process.
    Rests,
    /// It waits for room or for a message, or at a test line.
    Waits,
    /// It took a step, and goes on; there is nothing to tell and nothing to release.
    Went,
    /// It took a step, and is done, or releases lines.
    Tells,
    /// It took a step to the end of an alternate whose acceptance test held.
    Accepts,
    /// It is to enter a recovery block.
    Enters(u32),
    /// It is to be rejected from the innermost of its first so many levels on.
    Rejects(u32, Cause),
}

/// What stands first in process p decides.
#[inline(always)]
pub fn act<L: Ledger>(
    code: &Code,
    parts: &mut Parts<L>,
    turn: u32,
    p: u32,
    steps: &mut Steps<L>,
) -> Move
    requires work { AreAtWork (plain code.now) (turn + 1) parts.old }
    requires process { p < length parts.old.procs.items }
    requires acting { MayAct parts.old.procs.items p }
    requires room { HasRoom parts.old.links }
    ensures leads { MovesAt parts.old p
        (λ q w. acts (kind_with (plain code.now) parts.old.table) turn p q w (want (plain code.now) q.state))
        (LeadsTo (plain code.now) turn p (processes_of parts.old.procs.items) parts.new result) }
    ensures stays { StaysOpen (plain code.now) parts.old parts.new }
    ensures room { parts.old.links.room + links_yet result ≤ parts.new.links.room + 1 }
    ensures held { parts.new.links.held ≡ parts.old.links.held }
    ensures work { (one : Seen) → slice_get parts.old.procs.items p ≡ Some one
        → steps.new + 3 * named_yet (plain code.now) (memberships parts.old.table) p (world parts.new) result
        ≤ steps.old + looking (enters_there (plain code.now)
        (acts (kind_with (plain code.now) parts.old.table) turn p one.process (world parts.old) (want (plain code.now) one.process.state)).kind
        (Some one.process))
        + 3 * named_by_acts (plain code.now) (memberships parts.old.table) turn p one.process (world parts.old)
        (want (plain code.now) one.process.state) }
{
    let wanted = parts.procs[p as usize].want_next(code);
    match ready(code, &parts.procs, &parts.mails, p, wanted, steps) {
        ReadyFor::Idle => Move::Rests,
        ReadyFor::Waits => Move::Waits,
        ReadyFor::Enters(block) => Move::Enters(block),
        ReadyFor::Steps(message) => take_step(code, parts, turn, p, wanted, message, steps),
    }
}

/// Turn number `turn` of process p, up to its end.
#[inline(always)]
pub fn take_turn<L: Ledger>(
    code: &Code,
    parts: &mut Parts<L>,
    turn: u32,
    p: u32,
    steps: &mut Steps<L>,
) -> Move
    requires work { AreAtWork (plain code.now) turn parts.old }
    requires turns { turn < 2 ^ 32 - 1 }
    requires room { HasRoom parts.old.links }
    ensures leads { LeadsTo (plain code.now) turn p (processes_of parts.old.procs.items) parts.new result
        (move (kind_with (plain code.now) parts.old.table) turn p (world parts.old)) }
    ensures ran { result ≡ Move.Went → runs_there (slice_get (processes_of parts.old.procs.items) p) ≡ true }
    ensures stays { StaysOpen (plain code.now) parts.old parts.new }
    ensures room { parts.old.links.room + links_yet result ≤ parts.new.links.room + 1 }
    ensures held { parts.new.links.held ≡ parts.old.links.held }
    ensures work { steps.new + 3 * named_yet (plain code.now) (memberships parts.old.table) p (world parts.new) result
        ≤ steps.old + looking (enters_there (plain code.now)
        (move (kind_with (plain code.now) parts.old.table) turn p (world parts.old)).kind (slice_get (processes_of parts.old.procs.items) p))
        + 3 * named_in_turn (plain code.now) (memberships parts.old.table) turn p (world parts.old) }
{
    if is_running(&parts.procs, p) {
        run(code, parts, turn, p, steps)
    } else {
        Move::Rests
    }
}

// Whether process p is there, and runs.
#[inline(always)]
fn is_running<L: Ledger>(procs: &[Proc<L>], p: u32) -> bool
    ensures { result ≡ runs_there (slice_get (processes_of procs.now) p) }
{
    match procs.get(p as usize) {
        None => false,
        Some(proc) => matches!(proc.status(), ProcessStatus::Running),
    }
}

// A turn of process p, which runs: each of its levels counts it.
#[inline(always)]
fn run<L: Ledger>(
    code: &Code,
    parts: &mut Parts<L>,
    turn: u32,
    p: u32,
    steps: &mut Steps<L>,
) -> Move
    requires work { AreAtWork (plain code.now) turn parts.old }
    requires turns { turn < 2 ^ 32 - 1 }
    requires process { p < length parts.old.procs.items }
    requires running { (one : Seen) → slice_get parts.old.procs.items p ≡ Some one → one.process.status ≡ Running }
    requires room { HasRoom parts.old.links }
    ensures leads { MovesAt parts.old p (λ q w. runs (kind_with (plain code.now) parts.old.table) turn p (turn_used q) w)
        (LeadsTo (plain code.now) turn p (processes_of parts.old.procs.items) parts.new result) }
    ensures stays { StaysOpen (plain code.now) parts.old parts.new }
    ensures room { parts.old.links.room + links_yet result ≤ parts.new.links.room + 1 }
    ensures held { parts.new.links.held ≡ parts.old.links.held }
    ensures work { (one : Seen) → slice_get parts.old.procs.items p ≡ Some one
        → steps.new + 3 * named_yet (plain code.now) (memberships parts.old.table) p (world parts.new) result
        ≤ steps.old + looking (enters_there (plain code.now)
        (runs (kind_with (plain code.now) parts.old.table) turn p (turn_used one.process) (world parts.old)).kind (Some one.process))
        + 3 * named_running (plain code.now) (memberships parts.old.table) turn p (turn_used one.process) (world parts.old) }
{
    let over = count(&mut parts.procs, p);
    go_on(code, parts, turn, p, over, steps)
}

// The turn is counted at each level of process p; answers which is the outermost that is beyond its bound.
#[inline(always)]
fn count<L: Ledger>(procs: &mut [Proc<L>], p: u32) -> Option<u32>
    requires process { p < length procs.old }
    requires few { (one : Seen) → slice_get procs.old p ≡ Some one → Each (λ _ level. level.used < 2 ^ 32 - 1) one.process.levels }
    ensures counted { procs.new ≡ change_at p (changed turn_used) procs.old }
    ensures over { (one : Seen) → slice_get procs.new p ≡ Some one → result ≡ position is_over one.process.levels }
{
    procs[p as usize].count_turn()
}

// A turn of process p that its levels have counted: the outermost that is beyond its bound is rejected. With none, a process at a test line
// waits, and any other acts.
#[inline(always)]
fn go_on<L: Ledger>(
    code: &Code,
    parts: &mut Parts<L>,
    turn: u32,
    p: u32,
    over: Option<u32>,
    steps: &mut Steps<L>,
) -> Move
    requires work { AreAtWork (plain code.now) (turn + 1) parts.old }
    requires process { p < length parts.old.procs.items }
    requires running { (one : Seen) → slice_get parts.old.procs.items p ≡ Some one → one.process.status ≡ Running }
    requires over { (one : Seen) → slice_get parts.old.procs.items p ≡ Some one → over ≡ position is_over one.process.levels }
    requires room { HasRoom parts.old.links }
    ensures leads { MovesAt parts.old p
        (λ q w. bounded (kind_with (plain code.now) parts.old.table) turn p q w (position is_over q.levels))
        (LeadsTo (plain code.now) turn p (processes_of parts.old.procs.items) parts.new result) }
    ensures stays { StaysOpen (plain code.now) parts.old parts.new }
    ensures room { parts.old.links.room + links_yet result ≤ parts.new.links.room + 1 }
    ensures held { parts.new.links.held ≡ parts.old.links.held }
    ensures work { (one : Seen) → slice_get parts.old.procs.items p ≡ Some one
        → steps.new + 3 * named_yet (plain code.now) (memberships parts.old.table) p (world parts.new) result
        ≤ steps.old + looking (enters_there (plain code.now)
        (bounded (kind_with (plain code.now) parts.old.table) turn p one.process (world parts.old) (position is_over one.process.levels)).kind
        (Some one.process))
        + 3 * named_within (plain code.now) (memberships parts.old.table) turn p one.process (world parts.old)
        (position is_over one.process.levels) }
{
    match over {
        Some(level) => Move::Rejects(level + 1, Cause::Overrun),
        None if parts.procs[p as usize].at_line() => Move::Waits,
        None => act(code, parts, turn, p, steps),
    }
}
