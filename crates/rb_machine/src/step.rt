//! A step of a process in its turn: it goes on, traps, or comes to the end of an alternate whose acceptance test held.

ghost use Rattle.std.specs.Prelude.{◌≡◌, ◌+◌, ◌*◌, ◌<◌, ◌≤◌, length, slice_get, Some};
ghost use Rattle.rb_world.specs.Turn.{steps as stepping};
ghost use Rattle.rb_code.specs.Instructions.Plain.{code as plain};
ghost use Rattle.rb_code.specs.WordMachine.Turn.{want};
ghost use Rattle.rb_proc.specs.Executable.{IsExecutable};
ghost use Rattle.rb_proc.specs.Given.{alternate_by};
ghost use Rattle.rb_proc.specs.Process.{Seen, alternate_for, wanted_by};
ghost use Rattle.rb_proc.specs.Sees.{AreSized};
ghost use Rattle.rb_proc.specs.Work.{named_in_step};
ghost use Rattle.rb_machine.specs.AtWork.{MayAct};
ghost use Rattle.rb_ready.specs.Readiness.{IsStep};
ghost use Rattle.rb_conv.specs.Conversations.{memberships};
ghost use Rattle.rb_machine.specs.Ends.{LeadsTo, StaysOpen, links_yet, named_yet};
ghost use Rattle.rb_recovery.specs.Links.{HasRoom};
ghost use Rattle.rb_recovery.specs.Innermost.{WantsThere};
ghost use Rattle.rb_machine.specs.Moves.{AreAtWork, MovesAt};
ghost use Rattle.rb_recovery.specs.Parts.{world};
ghost use Rattle.rb_machine.specs.Stepping.{AddsLink, HasDone, HasDoneAt, MayStep};
ghost use Rattle.rb_recovery.specs.Work.{named_by_steps};
ghost use Rattle.rb_recovery.specs.Worlds.{kind_with, processes_of};

use crate::moves::Move;
use rb_base::Steps;
use rb_code::Code;
use rb_mail::Mails;
use rb_proc::{Outcome, Proc, Wanted};
use rb_recovery::links::Links;
use rb_recovery::parts::Parts;
use std::sync::ledger::Ledger;

// A process takes a step. A turn that goes on or whose test held is kept, and the link of it, to the last kept turn before, is added; a
// trap adds none.
#[inline(always)]
fn step_kept<L: Ledger>(
    code: &Code,
    proc: &mut Proc<L>,
    mails: &mut Mails,
    links: &mut Links,
    turn: u32,
    p: u32,
    wanted: Wanted,
    message: Option<i64>,
    steps: &mut Steps<L>,
) -> Move
    requires code { IsExecutable (plain code.now) }
    requires may { MayStep (plain code.now) message proc.old }
    requires wanted { wanted ≡ wanted_by (want (plain code.now) proc.old.process.state) }
    requires sized { AreSized (plain code.now) mails.old }
    requires room { HasRoom links.old }
    ensures done { HasDone (plain code.now) turn message proc.old result mails.old mails.new proc.new }
    ensures sized { AreSized (plain code.now) mails.new }
    ensures links { AddsLink result
        (record { turn = turn; process = p; alternate = alternate_by wanted proc.old.process.levels; before = proc.old.process.state.last_kept })
        links.old.items links.new.items }
    ensures room { links.old.room ≤ links.new.room + 1 }
    ensures held { links.new.held ≡ links.old.held }
    ensures work { steps.new ≤ steps.old + 3 * named_in_step (plain code.now) proc.old.process mails.old message }
{
    match proc.step(code, mails, wanted, message, steps) {
        Outcome::Went => {
            links.note(proc, turn, p, wanted);
            proc.keep(turn);
            if proc.is_quiet() {
                Move::Went
            } else {
                Move::Tells
            }
        }
        Outcome::Accepts => {
            links.note(proc, turn, p, wanted);
            proc.keep(turn);
            Move::Accepts
        }
        Outcome::Trap(cause) => Move::Rejects(proc.levels(), cause),
    }
}

// Process p takes a step, and the others stay as they are.
#[inline(always)]
fn step_one<L: Ledger>(
    code: &Code,
    procs: &mut [Proc<L>],
    mails: &mut Mails,
    links: &mut Links,
    turn: u32,
    p: u32,
    wanted: Wanted,
    message: Option<i64>,
    steps: &mut Steps<L>,
) -> Move
    requires code { IsExecutable (plain code.now) }
    requires process { p < length procs.old }
    requires may { (one : Seen) → slice_get procs.old p ≡ Some one → MayStep (plain code.now) message one }
    requires wanted { WantsThere (plain code.now) procs.old p wanted }
    requires sized { AreSized (plain code.now) mails.old }
    requires room { HasRoom links.old }
    ensures done { (one : Seen) → slice_get procs.old p ≡ Some one
        → HasDoneAt (plain code.now) turn message p one result mails.old mails.new procs.old procs.new }
    ensures sized { AreSized (plain code.now) mails.new }
    ensures links { (one : Seen) → slice_get procs.old p ≡ Some one
        → AddsLink result
        (record { turn = turn; process = p; alternate = alternate_by wanted one.process.levels; before = one.process.state.last_kept })
        links.old.items links.new.items }
    ensures room { links.old.room ≤ links.new.room + 1 }
    ensures held { links.new.held ≡ links.old.held }
    ensures work { (one : Seen) → slice_get procs.old p ≡ Some one
        → steps.new ≤ steps.old + 3 * named_in_step (plain code.now) one.process mails.old message }
{
    step_kept(
        code,
        &mut procs[p as usize],
        mails,
        links,
        turn,
        p,
        wanted,
        message,
        steps,
    )
}

/// One step of process p: where it leads, and what is left to do of its turn.
#[inline(always)]
pub fn take_step<L: Ledger>(
    code: &Code,
    parts: &mut Parts<L>,
    turn: u32,
    p: u32,
    wanted: Wanted,
    message: Option<i64>,
    steps: &mut Steps<L>,
) -> Move
    requires work { AreAtWork (plain code.now) (turn + 1) parts.old }
    requires process { p < length parts.old.procs.items }
    requires acting { MayAct parts.old.procs.items p }
    requires step { (one : Seen) → slice_get parts.old.procs.items p ≡ Some one → IsStep message (want (plain code.now) one.process.state) }
    requires wanted { WantsThere (plain code.now) parts.old.procs.items p wanted }
    requires room { HasRoom parts.old.links }
    ensures leads { MovesAt parts.old p
        (λ q w. stepping (kind_with (plain code.now) parts.old.table) turn p
        (alternate_for (want (plain code.now) q.state) q.levels) message q w)
        (LeadsTo (plain code.now) turn p (processes_of parts.old.procs.items) parts.new result) }
    ensures stays { StaysOpen (plain code.now) parts.old parts.new }
    ensures room { parts.old.links.room + links_yet result ≤ parts.new.links.room + 1 }
    ensures held { parts.new.links.held ≡ parts.old.links.held }
    ensures work { (one : Seen) → slice_get parts.old.procs.items p ≡ Some one
        → steps.new + 3 * named_yet (plain code.now) (memberships parts.old.table) p (world parts.new) result
        ≤ steps.old
        + 3 * named_by_steps (plain code.now) (memberships parts.old.table) turn p
        (alternate_for (want (plain code.now) one.process.state) one.process.levels) message one.process (world parts.old) }
{
    step_one(
        code,
        &mut parts.procs,
        &mut parts.mails,
        &mut parts.links,
        turn,
        p,
        wanted,
        message,
        steps,
    )
}
