//! A run that prints nothing, and then writes which of its turns survived.

ghost use Rattle.std.specs.Prelude.{◌≡◌, ◌+◌, ◌≤◌, true, [], length, replicate};
ghost use Rattle.rb_code.specs.WordMachine.WordRun.{word_run};
ghost use Rattle.rb_trace.specs.Naming.{naming};
ghost use Rattle.rb_world.specs.Text.{record_text};
ghost use Rattle.rb_machine.specs.Machine.{IsOver, opening_seen};
ghost use Rattle.rb_recovery.specs.Work.{turns_work};
ghost use Rattle.rb_recovery.specs.Survivors.{word_survivors};
ghost use Rattle.rb_run.specs.Running.{NoneWaits, ran};
ghost use Rattle.rb_run.specs.Surviving.{IsErasedOver, Survives};

use crate::record::write_record;
use rb_base::{Kept, Names, Report, Steps};
use rb_machine::Machine;
use rb_outside::{Failed, Sink};
use rb_sched::Schedule;
use std::alloc::Global;
use std::sync::ledger::Ledger;

/// Why the survivors of a run were not written, or not to their end.
#[derive(Clone, Copy)]
pub enum Ended {
    /// A write failed.
    WriteFault,
    /// Memory was wanting for the list of the survivors.
    Memory,
}

/// Runs a machine that was just loaded for survivors over a schedule that was just read, with nothing printed, and then writes them as a
/// record. Where memory is wanting for their list nothing is written. Of code that stands for an accepted source the plain run of this
/// record ends as the run ended. Its ticks are at most those of its turns.
pub fn survive<S: Sink, L: Ledger>(
    alloc: Global,
    machine: &mut Machine<'_, L>,
    names: &Names,
    schedule: Schedule<'_>,
    out: &mut S,
    steps: &mut Steps<L>,
) -> Result<(), Ended>
    requires fresh { machine.old ≡ opening_seen machine.old.code machine.old.groups true machine.old.most }
    requires named { naming names.now ≡ machine.old.code.names }
    requires whole { schedule.left ≡ schedule.all }
    requires turns { length schedule.left ≤ machine.old.most }
    ensures text { Survives
        (record_text machine.old.code.names (word_survivors (word_run machine.old.code machine.old.groups schedule.entry.all).0))
        (S.written out.old) (S.written out.new) (S.faults out.old) (S.faults out.new) result }
    ensures erased { IsErasedOver machine.old.code machine.old.groups schedule.entry.all }
    ensures work { steps.new ≤ steps.old + turns_work machine.old.code machine.old.groups 1 schedule.entry.all machine.old.world }
{
    let mut report = machine.opening();
    take_unseen(machine, schedule, &mut report, steps);
    match machine.survivors(alloc) {
        Ok(kept) => write_survivors(out, &kept, names),
        Err(_) => Err(Ended::Memory),
    }
}

// Takes the turns of a schedule, and writes nothing of them. Once every process rests the others are taken at once.
fn take_unseen<L: Ledger>(
    machine: &mut Machine<'_, L>,
    mut schedule: Schedule<'_>,
    report: &mut Report,
    steps: &mut Steps<L>,
)
    requires waits { NoneWaits machine.old }
    requires turns { machine.old.taken + length schedule.left ≤ machine.old.most }
    requires end { machine.old.taken + length schedule.left ≡ length schedule.all }
    ensures machine { machine.new ≡ ran machine.old schedule.entry.left }
    ensures work { steps.new
        ≤ steps.old + turns_work machine.old.code machine.old.groups (machine.old.taken + 1) schedule.entry.left machine.old.world }
{
    'turns: while let Some(p) = schedule.next() {
        machine.turn(p, report, steps);
        if drop_lines(machine) {
            machine.rest_until(schedule.turns());
            return;
        }
    }
}

// Forgets the released lines of the turn that was taken last. True where no turn behind it changes anything.
fn drop_lines<L: Ledger>(machine: &mut Machine<'_, L>) -> bool
    requires { length machine.old.waiting ≡ length machine.old.world.processes }
    ensures machine { machine.new ≡ record machine.old { waiting = replicate (length machine.old.waiting) [] } }
    ensures over { result ≡ true → IsOver machine.new }
{
    if !machine.has_released() {
        return false;
    }
    machine.drop_released();
    machine.is_over()
}

// Writes survivors as a record.
fn write_survivors<S: Sink>(out: &mut S, kept: &[Kept], names: &Names) -> Result<(), Ended>
    ensures { Survives (record_text (naming names.now) kept.now) (S.written out.old) (S.written out.new)
        (S.faults out.old) (S.faults out.new) result }
{
    match write_record(out, kept, names) {
        Ok(()) => Ok(()),
        Err(Failed) => Err(Ended::WriteFault),
    }
}
