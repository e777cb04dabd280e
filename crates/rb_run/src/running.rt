//! A run of a loaded machine over a schedule, from its turns to the bytes that it prints.

ghost use Rattle.std.specs.Prelude.{◌≡◌, ℕ, ◌+◌, ◌<◌, ◌≤◌, ◌++◌, false, true, [], length, replicate, IfOk, OnOk};
ghost use Rattle.rb_code.specs.WordMachine.WordKind.{word_kind};
ghost use Rattle.rb_code.specs.WordMachine.WordRun.{word_text};
ghost use Rattle.rb_meaning.specs.Meaning.{run_text};
ghost use Rattle.rb_outside.specs.Puts.{Puts};
ghost use Rattle.rb_trace.specs.Ended.{numbers_printed};
ghost use Rattle.rb_trace.specs.Naming.{naming};
ghost use Rattle.rb_trace.specs.Report.{told_of};
ghost use Rattle.rb_world.specs.Text.{all_told, told_text};
ghost use Rattle.rb_world.specs.Turn.{run as run_from};
ghost use Rattle.rb_machine.specs.Machine.{IsOver, opening_seen};
ghost use Rattle.rb_recovery.specs.Work.{turns_work};
ghost use Rattle.rb_run.specs.Running.{HasNoLines, NoneWaits, NamesFit, ran};
ghost use Rattle.rb_run.specs.Sources.{OfItsSource};

use rb_base::{Names, Report, Steps};
use rb_machine::Machine;
use rb_outside::{Failed, Sink};
use rb_sched::Schedule;
use rb_trace::{write_end, write_report};
use std::sync::ledger::Ledger;

/// Runs a machine that was just loaded, and holds no links, over a schedule that was just read, and writes the run's text. It takes no
/// memory: it answers Ok with the whole text written, or Failed where a write failed, with a prefix written. Of code that stands for an
/// accepted source that is the text that the meaning gives. Its ticks are at most those of its turns, and one for each number that the
/// ending prints.
#[inline(always)]
pub fn run<S: Sink, L: Ledger>(
    machine: &mut Machine<'_, L>,
    names: &Names,
    schedule: Schedule<'_>,
    out: &mut S,
    steps: &mut Steps<L>,
) -> Result<(), Failed>
    requires fresh { machine.old ≡ opening_seen machine.old.code machine.old.groups false machine.old.most }
    requires named { naming names.now ≡ machine.old.code.names }
    requires fit { NamesFit machine.old.code names.now }
    requires whole { schedule.left ≡ schedule.all }
    requires turns { length schedule.left ≤ machine.old.most }
    ensures text { Puts (word_text machine.old.code machine.old.groups schedule.entry.all) (S.written out.old)
        (S.written out.new) (S.faults out.old) (S.faults out.new) result }
    ensures meant { OfItsSource machine.old.code machine.old.groups (λ tree.
        Puts (run_text tree schedule.entry.all) (S.written out.old) (S.written out.new) (S.faults out.old) (S.faults out.new) result) }
    ensures work { steps.new
        ≤ steps.old + turns_work machine.old.code machine.old.groups 1 schedule.entry.all machine.old.world
        + numbers_printed (naming names.now) }
{
    let turns = schedule.turns();
    let mut report = machine.opening();
    write_report(out, 0, &report, names, machine)?;
    take_turns(machine, names, schedule, &mut report, out, steps)?;
    write_end(out, turns, names, machine, steps)
}

// Takes the turns of a schedule, each into the same report, and writes the lines of each. Once every process rests the
// others are taken at once. It stands in its caller, where the machine is a local: as a call it costs 5 instructions a turn more.
#[inline(always)]
fn take_turns<S: Sink, L: Ledger>(
    machine: &mut Machine<'_, L>,
    names: &Names,
    mut schedule: Schedule<'_>,
    report: &mut Report,
    out: &mut S,
    steps: &mut Steps<L>,
) -> Result<(), Failed>
    requires named { length names.now.processes.items ≡ length machine.old.world.processes }
    requires waits { NoneWaits machine.old }
    requires turns { machine.old.taken + length schedule.left ≤ machine.old.most }
    requires end { machine.old.taken + length schedule.left ≡ length schedule.all }
    ensures text { Puts
        (all_told (naming names.now) (machine.old.taken + 1)
        (run_from (word_kind machine.old.code machine.old.groups) (machine.old.taken + 1) schedule.entry.left machine.old.world).1)
        (S.written out.old) (S.written out.new) (S.faults out.old) (S.faults out.new) result }
    ensures ran { OnOk result (machine.new ≡ ran machine.old schedule.entry.left) }
    ensures work { steps.new
        ≤ steps.old + turns_work machine.old.code machine.old.groups (machine.old.taken + 1) schedule.entry.left machine.old.world }
{
    'turns: while let Some(p) = schedule.next() {
        machine.turn(p, report, steps);
        let over = write_turn(out, report, names, machine)?;
        if over {
            machine.rest_until(schedule.turns());
            return Ok(());
        }
    }
    Ok(())
}

// Writes the lines of the turn that was taken last. Most turns have none. True where no turn behind it has any.
fn write_turn<S: Sink, L: Ledger>(
    out: &mut S,
    report: &Report,
    names: &Names,
    machine: &mut Machine<'_, L>,
) -> Result<bool, Failed>
    requires fit { length machine.old.waiting ≡ length names.now.processes.items }
    requires processes { length machine.old.waiting ≡ length machine.old.world.processes }
    ensures text { Puts
        (told_text (naming names.now) machine.old.taken (told_of report.now.kind report.now.events.items machine.old.waiting))
        (S.written out.old) (S.written out.new) (S.faults out.old) (S.faults out.new) result }
    ensures none_waits { OnOk result (machine.new.waiting ≡ replicate (length machine.old.waiting) []) }
    ensures rest { record machine.new { waiting = [] } ≡ record machine.old { waiting = [] } }
    ensures over { IfOk result (λ over. over ≡ true → IsOver machine.new) }
{
    if !has_lines(report, machine) {
        return Ok(false);
    }
    write_report(out, machine.turns_taken(), report, names, machine)?;
    Ok(machine.is_over())
}

// False where a turn has no lines to be written.
fn has_lines<L: Ledger>(report: &Report, machine: &Machine<'_, L>) -> bool
    ensures { result ≡ false → HasNoLines report.now machine.now }
{
    !report.events.is_empty() || machine.has_released()
}
