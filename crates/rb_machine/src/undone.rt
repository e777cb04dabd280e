//! Turns that end in rejections.

ghost use Rattle.std.specs.Prelude.{◌≡◌, ◌+◌, ◌<◌, ◌≤◌, false, length};
ghost use Rattle.rb_base.specs.declared.limits.TheConstants.{MOST_OPEN_LEVELS};
ghost use Rattle.rb_world.specs.Reject.{reject};
ghost use Rattle.rb_world.specs.Turn.{undone};
ghost use Rattle.rb_code.specs.Instructions.Plain.{Code as Plain};
ghost use Rattle.rb_proc.specs.Sees.{AreSized};
ghost use Rattle.rb_recovery.specs.Cascade.{AreQuiet, MayRejectAt};
ghost use Rattle.rb_machine.specs.Moves.{HasMoved, IsLeft};
ghost use Rattle.rb_recovery.specs.Parts.{world};
ghost use Rattle.rb_recovery.specs.Work.{undoing};
ghost use Rattle.rb_recovery.specs.Worlds.{kind_with, processes_of};

use crate::came::Came;
use arrayvec::ArrayVec;
use rb_base::{Cause, Event, MOST_EVENTS, Steps, TurnKind};
use rb_recovery::cascade::reject;
use rb_recovery::parts::Parts;
use std::sync::ledger::Ledger;

/// Ends a turn by rejecting process p from the innermost of its first `left` levels on.
#[inline(always)]
pub fn undo<L: Ledger>(
    parts: &mut Parts<L>,
    p: u32,
    left: u32,
    cause: Cause,
    events: &mut ArrayVec<Event, MOST_EVENTS>,
    steps: &mut Steps<L>,
) -> Came
    requires process { p < length parts.old.procs.items }
    requires may { MayRejectAt parts.old.procs.items parts.old.table p left }
    requires quiet { AreQuiet parts.old.procs.items }
    requires few { left ≤ MOST_OPEN_LEVELS }
    requires none { length events.old.items ≡ 0 }
    ensures moved { (c : Plain)
        → HasMoved parts.new events.new.items result (undone (reject (kind_with c parts.old.table) p left cause (world parts.old))) }
    ensures left { (c : Plain) → AreSized c parts.old.mails → IsLeft c parts.old parts.new events.new.items result }
    ensures quiet { result.quiet ≡ false }
    ensures links { parts.new.links ≡ parts.old.links }
    ensures work { steps.new
        ≤ steps.old + undoing result.kind (processes_of parts.old.procs.items) events.new.items (processes_of parts.new.procs.items) }
{
    reject(
        &mut parts.procs,
        &mut parts.table,
        p,
        left,
        cause,
        events,
        steps,
    );
    Came::without_pass(TurnKind::Undone)
}
