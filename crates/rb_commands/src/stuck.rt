//! The end of `stuck`: a source runs over the turns of a schedule with nothing printed, and it is told how it stands.
ghost use Rattle.std.specs.Prelude.{◌≡◌, ◌≤◌, ◌<◌, ℕ, List, length};
ghost use Rattle.rb_base.specs.declared.limits.TheConstants.{MOST_TURNS};
ghost use Rattle.rb_code.specs.Instructions.Plain.{code as plain};
ghost use Rattle.rb_conv.specs.Conversations.{memberships, opening};
ghost use Rattle.rb_prepare.specs.Prepared.{IsPrepared};
ghost use Rattle.rb_stuck.specs.Programs.{word_standing_text};
ghost use Rattle.rb_turns.specs.Written.{PutsOrMemory};

use crate::why::Why;
use rb_base::Steps;
use rb_hall::Unwritten;
use rb_machine::Machine;
use rb_outside::Sink;
use rb_prepare::Prepared;
use rb_run::count;
use rb_sched::Schedule;
use rb_stuck::{survey, write_standing};
use std::alloc::Global;
use std::sync::ledger::{Blank, Ledger};

/// Runs the code of an accepted source over turns, and writes how it stands then. A turn more of each process may be taken to see it. The
/// ledger counts steps, which contracts alone see.
pub fn survey_turns<S: Sink, L: Ledger>(
    alloc: Global,
    prepared: &Prepared,
    schedule: Schedule<'_>,
    out: &mut S,
    blank: Blank,
) -> Result<(), Unwritten<Why>>
    requires name { blank.name ≡ L.name }
    requires parts { blank.parts ≡ L.parts }
    requires backed { 0 < blank.parts }
    requires prepared { (source : List ℕ) × IsPrepared source prepared.now }
    requires whole { schedule.left ≡ schedule.all }
    requires turns { length schedule.left ≤ MOST_TURNS }
    ensures { PutsOrMemory (word_standing_text (plain prepared.now.code) (memberships (opening prepared.now.nested)) schedule.entry.all)
        (S.written out.old) (S.written out.new) (S.faults out.old) (S.faults out.new) result }
{
    let mut steps = Steps::<L>::start(blank);
    let names = &prepared.code.names;
    let processes = names.processes.len() as u32;
    let most = schedule.turns() + processes;
    match Machine::load(alloc, &prepared.code, &prepared.nested, most, &mut steps) {
        Ok(mut machine) => {
            count(&mut machine, schedule, &mut steps);
            let standing = survey(&mut machine, processes, &mut steps);
            match write_standing(standing, &machine, names, out) {
                Ok(()) => Ok(()),
                Err(_) => Err(Unwritten::Fault),
            }
        }
        Err(_) => Err(Unwritten::Memory),
    }
}
