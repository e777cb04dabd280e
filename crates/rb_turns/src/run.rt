//! The end of `run` and `load`: code runs over the turns of a schedule, and the text of the run is written.
ghost use Rattle.std.specs.Prelude.{◌≡◌, ◌≤◌, ◌<◌, length};
ghost use Rattle.rb_base.specs.declared.limits.TheConstants.{MOST_TURNS};
ghost use Rattle.rb_code.specs.Instructions.Plain.{code as plain};
ghost use Rattle.rb_code.specs.WordMachine.WordRun.{word_text};
ghost use Rattle.rb_conv.specs.Conversations.{memberships, opening};
ghost use Rattle.rb_code.specs.SoundCode.WellFormed.{IsSound};
ghost use Rattle.rb_recovery.specs.Worlds.{counts_of};
ghost use Rattle.rb_run.specs.Running.{NamesFit};
ghost use Rattle.rb_turns.specs.Written.{PutsOrMemory};

use rb_base::{Nested, Steps};
use rb_code::Code;
use rb_hall::Unwritten;
use rb_machine::Machine;
use rb_outside::Sink;
use rb_run::run;
use rb_sched::Schedule;
use std::alloc::Global;
use std::sync::ledger::{Blank, Ledger};

/// Runs sound code over turns, and writes the text of the run. The ledger counts steps, which contracts alone see.
#[inline(always)]
pub fn run_turns<W: Drop, S: Sink, L: Ledger>(
    alloc: Global,
    code: &Code,
    nested: &Nested,
    schedule: Schedule<'_>,
    out: &mut S,
    blank: Blank,
) -> Result<(), Unwritten<W>>
    requires name { blank.name ≡ L.name }
    requires parts { blank.parts ≡ L.parts }
    requires backed { 0 < blank.parts }
    requires sound { IsSound (plain code.now) (memberships (opening nested.now)) (counts_of (opening nested.now)) }
    requires fit { NamesFit (plain code.now) code.now.names }
    requires whole { schedule.left ≡ schedule.all }
    requires turns { length schedule.left ≤ MOST_TURNS }
    ensures { PutsOrMemory (word_text (plain code.now) (memberships (opening nested.now)) schedule.entry.all)
        (S.written out.old) (S.written out.new) (S.faults out.old) (S.faults out.new) result }
{
    let mut steps = Steps::<L>::start(blank);
    let turns = schedule.turns();
    let names = &code.names;
    match Machine::load(alloc, code, nested, turns, &mut steps) {
        Ok(mut machine) => match run(&mut machine, names, schedule, out, &mut steps) {
            Ok(()) => Ok(()),
            Err(_) => Err(Unwritten::Fault),
        },
        Err(_) => Err(Unwritten::Memory),
    }
}
