//! The end of `survive`: a source runs over the turns of a schedule with nothing printed, and its survivors are written.
ghost use Rattle.std.specs.Prelude.{◌≡◌, ◌≤◌, ◌<◌, ℕ, List, length};
ghost use Rattle.rb_base.specs.declared.limits.TheConstants.{MOST_TURNS};
ghost use Rattle.rb_code.specs.Instructions.Plain.{code as plain};
ghost use Rattle.rb_code.specs.WordMachine.WordRun.{word_run};
ghost use Rattle.rb_conv.specs.Conversations.{memberships, opening};
ghost use Rattle.rb_recovery.specs.Survivors.{word_survivors};
ghost use Rattle.rb_prepare.specs.Prepared.{IsPrepared};
ghost use Rattle.rb_world.specs.Text.{record_text};
ghost use Rattle.rb_turns.specs.Written.{PutsOrMemory};
ghost use Rattle.rb_commands.specs.Written.{unwritten_of_survival};

use crate::why::Why;
use rb_base::Steps;
use rb_hall::Unwritten;
use rb_machine::Machine;
use rb_outside::Sink;
use rb_prepare::Prepared;
use rb_run::{Ended, survive};
use rb_sched::Schedule;
use std::alloc::Global;
use std::sync::ledger::{Blank, Ledger};

/// Runs the code of an accepted source over turns, and writes the survivors as a record. The ledger counts steps, which contracts alone
/// see.
pub fn survive_turns<S: Sink, L: Ledger>(
    alloc: Global,
    prepared: &Prepared,
    schedule: Schedule<'_>,
    out: &mut S,
    blank: Blank,
) -> Result<(), Unwritten<Why>>
    requires name { blank.name ≡ L.name }
    requires parts { blank.parts ≡ L.parts }
    requires backed { 0 < blank.parts }
    requires prepared { (source : List ℕ) × IsPrepared source prepared.now }
    requires whole { schedule.left ≡ schedule.all }
    requires turns { length schedule.left ≤ MOST_TURNS }
    ensures { let code = plain prepared.now.code in
        let last = (word_run code (memberships (opening prepared.now.nested)) schedule.entry.all).0 in
        PutsOrMemory (record_text code.names (word_survivors last))
        (S.written out.old) (S.written out.new) (S.faults out.old) (S.faults out.new) result }
{
    let mut steps = Steps::<L>::start(blank);
    let turns = schedule.turns();
    let names = &prepared.code.names;
    match Machine::load_for_survivors(alloc, &prepared.code, &prepared.nested, turns, &mut steps) {
        Ok(mut machine) => unwritten_of(survive(
            alloc,
            &mut machine,
            names,
            schedule,
            out,
            &mut steps,
        )),
        Err(_) => Err(Unwritten::Memory),
    }
}

// How the call ends after the survivors.
fn unwritten_of(ended: Result<(), Ended>) -> Result<(), Unwritten<Why>>
    ensures { result ≡ unwritten_of_survival ended }
{
    match ended {
        Ok(()) => Ok(()),
        Err(Ended::WriteFault) => Err(Unwritten::Fault),
        Err(Ended::Memory) => Err(Unwritten::Memory),
    }
}
