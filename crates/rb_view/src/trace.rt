//! The trace of a run: its head, what is told before the first turn and in each turn, and the ending of the run.

ghost use Rattle.std.specs.Prelude.{◌≡◌, ◌+◌, ◌<◌, ◌≤◌, false, [], ◌++◌, length, replicate, slice_get, OnOk};
ghost use Rattle.rb_code.specs.Instructions.Plain.{code as plain};
ghost use Rattle.rb_conv.specs.Conversations.{memberships, opening};
ghost use Rattle.rb_outside.specs.Puts.{Puts};
ghost use Rattle.rb_changes.specs.Changes.{changes};
ghost use Rattle.rb_picture.specs.Trace.{back_text, before_opening, trace_text, turn_of, turn_texts, word_reading};
ghost use Rattle.rb_trace.specs.Naming.{naming};
ghost use Rattle.rb_trace.specs.Report.{told_of};
ghost use Rattle.rb_world.specs.Text.{told_text};
ghost use Rattle.rb_recovery.specs.Known.{IsSoundFor};
ghost use Rattle.rb_machine.specs.Machine.{opening_seen, turned};
ghost use Rattle.rb_recovery.specs.Worlds.{counts_of};
ghost use Rattle.rb_run.specs.Running.{NamesFit, NoneWaits, ran};
ghost use Rattle.rb_view.specs.Steady.{IsOfRun, IsSized, IsSteady, noted_now, shown_now};

use crate::asking::{asked_of, place_of};
use crate::was::Was;
use rb_base::{Names, Nested, Place, Report, Steps};
use rb_code::Code;
use rb_machine::Machine;
use rb_outside::{Failed, Sink};
use rb_picture::{write_head, write_turn};
use rb_sched::Schedule;
use rb_trace::{write_end, write_report};
use std::sync::ledger::Ledger;

/// Runs a machine that was just loaded from this code, and holds no links, over a schedule that was just read, and writes the trace of the
/// run. The places are those of the code, by address, and `was` is a program before its opening. It takes no memory: it answers Ok with the
/// whole trace written, or Failed where a write failed, with a prefix written.
pub fn write_trace<S: Sink, L: Ledger>(
    machine: &mut Machine<'_, L>,
    code: &Code,
    nested: &Nested,
    places: &[Option<Place>],
    was: &mut Was,
    schedule: Schedule<'_>,
    out: &mut S,
    steps: &mut Steps<L>,
) -> Result<(), Failed>
    requires fresh { machine.old ≡ opening_seen (plain code.now) (memberships (opening nested.now)) false machine.old.most }
    requires fit { NamesFit (plain code.now) code.now.names }
    requires before { was.old ≡ before_opening (plain code.now) (memberships (opening nested.now)) }
    requires whole { schedule.left ≡ schedule.all }
    requires turns { length schedule.left ≤ machine.old.most }
    ensures { Puts
        (trace_text (plain code.now) (memberships (opening nested.now)) (counts_of (opening nested.now)) places.now schedule.entry.all)
        (S.written out.old) (S.written out.new) (S.faults out.old) (S.faults out.new) result }
{
    let names = &code.names;
    let turns = schedule.turns();
    let mut report = machine.opening();
    write_head(out, code, nested, turns)?;
    write_told(out, 0, &report, names, machine, was, steps)?;
    take_turns(
        machine,
        code,
        names,
        places,
        was,
        schedule,
        &mut report,
        out,
        steps,
    )?;
    write_end(out, turns, names, machine, steps)
}

// Takes the turns of a schedule, each into the same report, and writes what each of them is.
fn take_turns<S: Sink, L: Ledger>(
    machine: &mut Machine<'_, L>,
    code: &Code,
    names: &Names,
    places: &[Option<Place>],
    was: &mut Was,
    mut schedule: Schedule<'_>,
    report: &mut Report,
    out: &mut S,
    steps: &mut Steps<L>,
) -> Result<(), Failed>
    requires code { machine.old.code ≡ plain code.now }
    requires named { naming names.now ≡ machine.old.code.names }
    requires fit { NamesFit machine.old.code names.now }
    requires sound { IsSoundFor machine.old.code machine.old.groups }
    requires of_run { IsOfRun machine.old }
    requires waits { NoneWaits machine.old }
    requires before { was.old ≡ noted_now machine.old }
    requires turns { machine.old.taken + length schedule.left ≤ machine.old.most }
    ensures text { Puts
        (turn_texts (word_reading machine.old.code machine.old.groups places.now) (naming names.now) (machine.old.taken + 1) machine.old.world
        schedule.entry.left) (S.written out.old) (S.written out.new) (S.faults out.old) (S.faults out.new) result }
    ensures ran { OnOk result (machine.new ≡ ran machine.old schedule.entry.left) }
{
    'turns: while let Some(p) = schedule.next() {
        take_turn(machine, code, names, places, was, p, report, out, steps)?;
    }
    Ok(())
}

// Takes one turn, and writes what it is. A turn of no process has no text.
fn take_turn<S: Sink, L: Ledger>(
    machine: &mut Machine<'_, L>,
    code: &Code,
    names: &Names,
    places: &[Option<Place>],
    was: &mut Was,
    p: u32,
    report: &mut Report,
    out: &mut S,
    steps: &mut Steps<L>,
) -> Result<(), Failed>
    requires code { machine.old.code ≡ plain code.now }
    requires fit { NamesFit machine.old.code names.now }
    requires sound { IsSoundFor machine.old.code machine.old.groups }
    requires of_run { IsOfRun machine.old }
    requires waits { NoneWaits machine.old }
    requires before { was.old ≡ noted_now machine.old }
    requires more { machine.old.taken < machine.old.most }
    ensures text { Puts
        (turn_of (word_reading machine.old.code machine.old.groups places.now) (naming names.now) (machine.old.taken + 1) p
        (slice_get machine.old.world.processes p) machine.old.world) (S.written out.old) (S.written out.new) (S.faults out.old)
        (S.faults out.new) result }
    ensures machine { OnOk result (machine.new ≡ record machine.old { world = (turned machine.old p).0; taken = machine.old.taken + 1 }) }
    ensures kept { OnOk result (was.new ≡ noted_now machine.new) }
{
    if p as usize >= names.processes.len() {
        skip_turn(machine, was, p, report, steps);
        return Ok(());
    }
    let asked = asked_of(machine, p);
    let place = place_of(machine, code, places, p);
    machine.turn(p, report, steps);
    let turn = machine.turns_taken();
    write_turn(out, names, turn, p, place, report.kind, asked)?;
    write_told(out, turn, report, names, machine, was, steps)
}

// A turn of a process that is not there.
fn skip_turn<L: Ledger>(
    machine: &mut Machine<'_, L>,
    was: &mut Was,
    p: u32,
    report: &mut Report,
    steps: &mut Steps<L>,
)
    requires sound { IsSoundFor machine.old.code machine.old.groups }
    requires of_run { IsOfRun machine.old }
    requires waits { NoneWaits machine.old }
    requires before { was.old ≡ noted_now machine.old }
    requires more { machine.old.taken < machine.old.most }
    ensures machine { machine.new ≡ record machine.old { world = (turned machine.old p).0; taken = machine.old.taken + 1 } }
    ensures kept { was.new ≡ noted_now machine.new }
{
    machine.turn(p, report, steps);
    machine.drop_released();
    was.keep(machine, steps);
}

// Writes what was told of a turn, what it put back, and what it changed.
fn write_told<S: Sink, L: Ledger>(
    out: &mut S,
    turn: u32,
    report: &Report,
    names: &Names,
    machine: &mut Machine<'_, L>,
    was: &mut Was,
    steps: &mut Steps<L>,
) -> Result<(), Failed>
    requires steady { IsSteady machine.old }
    requires fit { NamesFit machine.old.code names.now }
    requires sized { IsSized machine.old.code machine.old.groups was.old }
    requires waiting { length machine.old.waiting ≡ length names.now.processes.items }
    ensures text { Puts
        (told_text (naming names.now) turn (told_of report.now.kind report.now.events.items machine.old.waiting)
        ++ (back_text report.now.kind turn (naming names.now) was.old (shown_now machine.old)
        ++ changes turn (naming names.now) was.old (shown_now machine.old)))
        (S.written out.old) (S.written out.new) (S.faults out.old) (S.faults out.new) result }
    ensures none_waits { OnOk result (machine.new.waiting ≡ replicate (length machine.old.waiting) []) }
    ensures rest { record machine.new { waiting = [] } ≡ record machine.old { waiting = [] } }
    ensures kept { OnOk result (was.new ≡ noted_now machine.old) }
{
    write_report(out, turn, report, names, machine)?;
    was.tell(out, turn, report.kind, names, machine, steps)
}
