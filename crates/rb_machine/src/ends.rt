//! How turns end, by what the process did in them: rare ends are functions of their own, so that a plain step and a wait are not slowed by them.

ghost use Rattle.std.specs.Prelude.{◌≡◌, ℕ, ◌+◌, ◌*◌, ◌<◌, ◌≤◌, true, false, length, None};
ghost use Rattle.rb_base.specs.declared.event.TurnKind.TheVariants.{Took};
ghost use Rattle.rb_code.specs.Instructions.Plain.{Code as Plain, code as plain};
ghost use Rattle.rb_trace.specs.Report.{told_of};
ghost use Rattle.rb_machine.specs.Ends.{Ends, Finishes, SomeTurnCame, SomeTurnIsUnderWay, links_yet};
ghost use Rattle.rb_machine.specs.Telling.{IsQuiet};
ghost use Rattle.rb_recovery.specs.Work.{releasing};
ghost use Rattle.rb_recovery.specs.Worlds.{lines_of};

use crate::came::Came;
use crate::entry::enter;
use crate::moves::Move;
use crate::telling::finish;
use crate::undone::undo;
use rb_base::{Cause, Event, Report, Steps, TurnKind};
use rb_code::Code;
use rb_proc::Proc;
use rb_recovery::parts::Parts;
use rb_recovery::test_line::accept;
use std::sync::ledger::Ledger;

/// Ends turn number `turn` of process p, by what the process did in it. False where no released line waits.
#[inline(always)]
pub fn end_turn<L: Ledger>(
    code: &Code,
    parts: &mut Parts<L>,
    running: &mut Vec<bool>,
    turn: u32,
    p: u32,
    moved: Move,
    report: &mut Report,
    steps: &mut Steps<L>,
) -> bool
    requires way { SomeTurnIsUnderWay (plain code.now) turn p parts.old running.old.items moved }
    requires none { length report.old.events.items ≡ 0 }
    ensures ended { Ends (plain code.now) turn p parts.old running.old.items moved parts.new running.new.items
        (told_of report.new.kind report.new.events.items (lines_of parts.new.procs.items)) result steps.old steps.new }
    ensures room { parts.old.links.room ≤ parts.new.links.room + links_yet moved }
    ensures held { parts.new.links.held ≡ parts.old.links.held }
{
    match moved {
        Move::Went => end(
            parts,
            running,
            p,
            Came::quietly(TurnKind::Took),
            report,
            steps,
        ),
        Move::Waits => end(
            parts,
            running,
            p,
            Came::quietly(TurnKind::Wait),
            report,
            steps,
        ),
        Move::Rests => end_alone(parts, running, p, TurnKind::Idle, report, steps),
        Move::Tells => end_alone(parts, running, p, TurnKind::Took, report, steps),
        Move::Accepts => pass_test(code, parts, running, p, report, steps),
        Move::Enters(block) => come_in(code, parts, running, turn, p, block, report, steps),
        Move::Rejects(left, cause) => take_back(parts, running, p, left, cause, report, steps),
    }
}

// Ends a turn of process p that came to this.
#[inline(always)]
fn end<L: Ledger>(
    parts: &mut Parts<L>,
    running: &mut Vec<bool>,
    p: u32,
    came: Came,
    report: &mut Report,
    steps: &mut Steps<L>,
) -> bool
    requires come { SomeTurnCame p parts.old running.old.items report.old.events.items came }
    ensures finished { Finishes p parts.old running.old.items report.old.events.items came parts.new running.new.items
        (told_of report.new.kind report.new.events.items (lines_of parts.new.procs.items)) result }
    ensures links { parts.new.links ≡ parts.old.links }
    ensures work { steps.new ≤ steps.old + 2 * releasing (lines_of parts.new.procs.items) }
{
    report.kind = came.kind;
    let alone = came.is_alone();
    finish(
        &mut parts.procs,
        running,
        p,
        alone,
        came,
        &mut report.events,
        steps,
    )
}

// The same of a turn in which no test line was passed.
#[cold]
#[inline(never)]
fn end_alone<L: Ledger>(
    parts: &mut Parts<L>,
    running: &mut Vec<bool>,
    p: u32,
    kind: TurnKind,
    report: &mut Report,
    steps: &mut Steps<L>,
) -> bool
    requires come { SomeTurnCame p parts.old running.old.items report.old.events.items (record { kind = kind; pass = None; quiet = false }) }
    ensures finished { Finishes p parts.old running.old.items report.old.events.items (record { kind = kind; pass = None; quiet = false }) parts.new
        running.new.items (told_of report.new.kind report.new.events.items (lines_of parts.new.procs.items)) result }
    ensures links { parts.new.links ≡ parts.old.links }
    ensures work { steps.new ≤ steps.old + 2 * releasing (lines_of parts.new.procs.items) }
{
    let came = Came::without_pass(kind);
    end(parts, running, p, came, report, steps)
}

// The acceptance test of process p's innermost level held.
#[inline(never)]
fn pass_test<L: Ledger>(
    code: &Code,
    parts: &mut Parts<L>,
    running: &mut Vec<bool>,
    p: u32,
    report: &mut Report,
    steps: &mut Steps<L>,
) -> bool
    requires way { (t : ℕ) × SomeTurnIsUnderWay (plain code.now) t p parts.old running.old.items Move.Accepts }
    requires none { length report.old.events.items ≡ 0 }
    ensures ended { (t : ℕ) → Ends (plain code.now) t p parts.old running.old.items Move.Accepts parts.new running.new.items
        (told_of report.new.kind report.new.events.items (lines_of parts.new.procs.items)) result steps.old steps.new }
    ensures links { parts.new.links ≡ parts.old.links }
{
    let pass = accept(code, &mut parts.procs, &mut parts.table, p, steps);
    if ends_quietly(&parts.procs, p, pass) {
        let came = Came {
            kind: TurnKind::Took,
            pass,
            quiet: true,
        };
        end(parts, running, p, came, report, steps)
    } else {
        let came = Came {
            kind: TurnKind::Took,
            pass,
            quiet: false,
        };
        end(parts, running, p, came, report, steps)
    }
}

// Whether process p, whose acceptance test held, goes on, and there is nothing to tell or to release: with no pass no other was touched.
#[inline(always)]
fn ends_quietly<L: Ledger>(procs: &[Proc<L>], p: u32, pass: Option<Event>) -> bool
    requires { p < length procs.now }
    ensures { result ≡ true → IsQuiet (record { kind = Took; pass = pass; quiet = result }) procs.now p }
{
    pass.is_none() && procs[p as usize].is_quiet()
}

// Process p enters a recovery block.
#[inline(never)]
fn come_in<L: Ledger>(
    code: &Code,
    parts: &mut Parts<L>,
    running: &mut Vec<bool>,
    turn: u32,
    p: u32,
    block: u32,
    report: &mut Report,
    steps: &mut Steps<L>,
) -> bool
    requires way { SomeTurnIsUnderWay (plain code.now) turn p parts.old running.old.items (Move.Enters block) }
    requires none { length report.old.events.items ≡ 0 }
    ensures ended { Ends (plain code.now) turn p parts.old running.old.items (Move.Enters block) parts.new running.new.items
        (told_of report.new.kind report.new.events.items (lines_of parts.new.procs.items)) result steps.old steps.new }
    ensures room { parts.old.links.room ≤ parts.new.links.room + 1 }
    ensures held { parts.new.links.held ≡ parts.old.links.held }
{
    let came = enter(code, parts, turn, p, block, &mut report.events, steps);
    end(parts, running, p, came, report, steps)
}

// Process p is rejected from the innermost of its first `left` levels on.
#[cold]
#[inline(never)]
fn take_back<L: Ledger>(
    parts: &mut Parts<L>,
    running: &mut Vec<bool>,
    p: u32,
    left: u32,
    cause: Cause,
    report: &mut Report,
    steps: &mut Steps<L>,
) -> bool
    requires way { (c : Plain) × (t : ℕ) × SomeTurnIsUnderWay c t p parts.old running.old.items (Move.Rejects left cause) }
    requires none { length report.old.events.items ≡ 0 }
    ensures ended { (c : Plain) (t : ℕ) → Ends c t p parts.old running.old.items (Move.Rejects left cause) parts.new running.new.items
        (told_of report.new.kind report.new.events.items (lines_of parts.new.procs.items)) result steps.old steps.new }
    ensures links { parts.new.links ≡ parts.old.links }
{
    let came = undo(parts, p, left, cause, &mut report.events, steps);
    end(parts, running, p, came, report, steps)
}
