//! How a machine stands: each process takes one turn, until one goes on.

ghost use Rattle.std.specs.Prelude.{◌≡◌, ◌+◌, ◌≤◌, true, [], length, replicate};
ghost use Rattle.std.specs.List.{list_all};
ghost use Rattle.rb_code.specs.WordMachine.WordKind.{word_kind};
ghost use Rattle.rb_stuck.specs.Stuck.{has_ended, is_still, is_stuck, standing};
ghost use Rattle.rb_stuck.specs.Survey.{HasStood, StandsAfter};

use crate::standing::Standing;
use arrayvec::ArrayVec;
use rb_base::{Final, Report, State, Steps, TurnKind};
use rb_machine::Machine;
use std::sync::ledger::Ledger;

/// How a machine stands, with so many processes. One turn of each is taken, in their order, up to the first that is neither idle nor a wait.
/// Ended comes exactly where every process is done or has failed, else Stuck exactly where all of these turns are idle or waits, and else
/// Open. The machine is at a world that differs in turns used alone, unless the answer is Open; then it is to be given up.
pub fn survey<L: Ledger>(
    machine: &mut Machine<'_, L>,
    processes: u32,
    steps: &mut Steps<L>,
) -> Standing
    requires all { processes ≡ length machine.old.world.processes }
    requires more { machine.old.taken + processes ≤ machine.old.most }
    requires waits { machine.old.waiting ≡ replicate (length machine.old.world.processes) [] }
    ensures standing { result ≡ standing (word_kind machine.old.code machine.old.groups) (machine.old.taken + 1) machine.old.world }
    ensures after { StandsAfter result machine.old machine.new }
{
    if have_ended(machine, processes) {
        return Standing::Ended;
    }
    if stand_still(machine, processes, steps) {
        Standing::Stuck
    } else {
        Standing::Open
    }
}

// Whether every process is done or has failed.
fn have_ended<L: Ledger>(machine: &Machine<'_, L>, processes: u32) -> bool
    requires { processes ≡ length machine.now.world.processes }
    ensures { result ≡ list_all has_ended machine.now.world.processes }
{
    for p in 0..processes {
        if let State::Running(_) = machine.state(p) {
            return false;
        }
    }
    true
}

// Whether a turn of each process is idle or waits.
fn stand_still<L: Ledger>(
    machine: &mut Machine<'_, L>,
    processes: u32,
    steps: &mut Steps<L>,
) -> bool
    requires all { processes ≡ length machine.old.world.processes }
    requires more { machine.old.taken + processes ≤ machine.old.most }
    requires waits { machine.old.waiting ≡ replicate (length machine.old.world.processes) [] }
    ensures stuck { result ≡ is_stuck (word_kind machine.old.code machine.old.groups) (machine.old.taken + 1) machine.old.world }
    ensures after { result ≡ true → HasStood machine.old machine.new }
{
    let mut report = Report {
        kind: TurnKind::Idle,
        events: ArrayVec::new(),
    };
    for p in 0..processes {
        machine.turn(p, &mut report, steps);
        if !is_still(report.kind) {
            return false;
        }
    }
    true
}

// Whether a turn was neither taken nor undone.
fn is_still(kind: TurnKind) -> bool
    ensures { result ≡ is_still kind }
{
    match kind {
        TurnKind::Idle | TurnKind::Wait => true,
        TurnKind::Took | TurnKind::Undone => false,
    }
}
