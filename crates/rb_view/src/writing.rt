//! What a turn changed, written: how a program stood when its changes were told last, beside how it stands now.

ghost use Rattle.std.specs.Prelude.{◌≡◌, [], ◌++◌, map, slice_get, Some};
ghost use Rattle.std.specs.List.{AllZip};
ghost use Rattle.rb_code.specs.Instructions.Plain.{Part};
ghost use Rattle.rb_code.specs.Instructions.Variables.{VariablesLie};
ghost use Rattle.rb_outside.specs.Puts.{Puts};
ghost use Rattle.rb_trace.specs.Naming.{naming, process_naming};
ghost use Rattle.rb_changes.specs.Changes.{all_channels, all_processes, change_of, changes, channel_changes, process_changes};
ghost use Rattle.rb_picture.specs.Trace.{back_text};
ghost use Rattle.rb_run.specs.Running.{NamesFit};
ghost use Rattle.rb_view.specs.Noting.{AreReady, noted, processes_noted, talks_noted, words_long};
ghost use Rattle.rb_view.specs.Steady.{IsSized, IsSteady, last_in, noted_now, shown_now};

use crate::noting::note;
use crate::shown::{write_back, write_talks};
use crate::was::{Noted, Was};
use rb_base::{Names, ProcessNames, Steps, Text, TurnKind};
use rb_changes::between::write_channel;
use rb_machine::Machine;
use rb_outside::{Failed, Sink};
use rb_picture::{Numbers, ProcessWas, write_process};
use std::sync::ledger::Ledger;

impl Was {
    ghost use Rattle.rb_view.specs.Steady.{IsSized, IsSteady, noted_now};

    /// Writes what a turn of this kind put back and changed, and keeps in mind how the machine stands now, whether or not a write failed.
    pub(crate) fn tell<S: Sink, L: Ledger>(
        &mut self,
        out: &mut S,
        turn: u32,
        kind: TurnKind,
        names: &Names,
        machine: &Machine<'_, L>,
        steps: &mut Steps<L>,
    ) -> Result<(), Failed>
        requires steady { IsSteady machine.now }
        requires fit { NamesFit machine.now.code names.now }
        requires sized { IsSized machine.now.code machine.now.groups self.old }
        ensures text { Puts
            (back_text kind turn (naming names.now) self.old (shown_now machine.now)
            ++ changes turn (naming names.now) self.old (shown_now machine.now))
            (S.written out.old) (S.written out.new) (S.faults out.old) (S.faults out.new) result }
        ensures kept { self.new ≡ noted_now machine.now }
    {
        note(machine, &mut self.now, steps);
        let written = write_all(out, turn, kind, names, machine, &self.told, &self.now);
        note(machine, &mut self.told, steps);
        written
    }
}

// What was put back, and what changed.
fn write_all<S: Sink, L: Ledger>(
    out: &mut S,
    turn: u32,
    kind: TurnKind,
    names: &Names,
    machine: &Machine<'_, L>,
    told: &Noted,
    now: &Noted,
) -> Result<(), Failed>
    requires steady { IsSteady machine.now }
    requires fit { NamesFit machine.now.code names.now }
    requires sized { IsSized machine.now.code machine.now.groups (noted told.now) }
    requires told { AreReady told.now.processes.items }
    requires ready { AreReady now.now.processes.items }
    requires now { noted now.now ≡ noted_now machine.now }
    ensures { Puts
        (back_text kind turn (naming names.now) (noted told.now) (shown_now machine.now)
        ++ changes turn (naming names.now) (noted told.now) (shown_now machine.now))
        (S.written out.old) (S.written out.new) (S.faults out.old) (S.faults out.new) result }
{
    write_back(out, turn, kind, &names.processes, told, now)?;
    write_changes(out, turn, names, machine, told, now)
}

// What changed of processes, of channels and of conversations.
fn write_changes<S: Sink, L: Ledger>(
    out: &mut S,
    turn: u32,
    names: &Names,
    machine: &Machine<'_, L>,
    told: &Noted,
    now: &Noted,
) -> Result<(), Failed>
    requires steady { IsSteady machine.now }
    requires fit { NamesFit machine.now.code names.now }
    requires sized { IsSized machine.now.code machine.now.groups (noted told.now) }
    requires told { AreReady told.now.processes.items }
    requires ready { AreReady now.now.processes.items }
    requires now { noted now.now ≡ noted_now machine.now }
    ensures { Puts (changes turn (naming names.now) (noted told.now) (shown_now machine.now)) (S.written out.old) (S.written out.new)
        (S.faults out.old) (S.faults out.new) result }
{
    write_processes(
        out,
        turn,
        &names.processes,
        machine,
        &told.processes,
        &now.processes,
    )?;
    write_channels(
        out,
        turn,
        &names.channels,
        machine,
        &told.channels,
        &now.channels,
    )?;
    write_talks(out, turn, &names.conversations, &told.talks, &now.talks)
}

fn write_processes<S: Sink, L: Ledger>(
    out: &mut S,
    turn: u32,
    processes: &[ProcessNames],
    machine: &Machine<'_, L>,
    told: &[ProcessWas],
    now: &[ProcessWas],
) -> Result<(), Failed>
    requires steady { IsSteady machine.now }
    requires fit { AllZip VariablesLie processes.now machine.now.code.processes }
    requires sized { map words_long (processes_noted told.now) ≡ map (λ part. part.words) machine.now.code.processes }
    requires told { AreReady told.now }
    requires ready { AreReady now.now }
    requires now { processes_noted now.now ≡ (noted_now machine.now).processes }
    ensures { Puts (all_processes turn (map process_naming processes.now) (processes_noted told.now) (shown_now machine.now).processes)
        (S.written out.old) (S.written out.new) (S.faults out.old) (S.faults out.new) result }
{
    for (p, process) in processes.iter().enumerate() {
        write_process_at(out, turn, process, p, machine, told, now)?;
    }
    Ok(())
}

// What changed of process p, if there is one.
fn write_process_at<S: Sink, L: Ledger>(
    out: &mut S,
    turn: u32,
    process: &ProcessNames,
    p: usize,
    machine: &Machine<'_, L>,
    told: &[ProcessWas],
    now: &[ProcessWas],
) -> Result<(), Failed>
    requires steady { IsSteady machine.now }
    requires fit { (part : Part) → slice_get machine.now.code.processes p ≡ Some part → VariablesLie process.now part }
    requires sized { map words_long (processes_noted told.now) ≡ map (λ part. part.words) machine.now.code.processes }
    requires told { AreReady told.now }
    requires ready { AreReady now.now }
    requires now { processes_noted now.now ≡ (noted_now machine.now).processes }
    ensures { Puts
        (change_of (process_changes turn (process_naming process.now)) (slice_get (processes_noted told.now) p)
        (slice_get (shown_now machine.now).processes p)) (S.written out.old) (S.written out.new) (S.faults out.old) (S.faults out.new) result }
{
    let Some(was) = told.get(p) else {
        return Ok(());
    };
    let Some(one) = now.get(p) else {
        return Ok(());
    };
    let last = machine.last_held(p as u32);
    write_process(out, turn, process, was, one, last)
}

fn write_channels<S: Sink, L: Ledger>(
    out: &mut S,
    turn: u32,
    names: &[Text],
    machine: &Machine<'_, L>,
    told: &[Numbers],
    now: &[Numbers],
) -> Result<(), Failed>
    requires steady { IsSteady machine.now }
    requires now { now.now ≡ (noted_now machine.now).channels }
    ensures { Puts (all_channels turn names.now told.now (shown_now machine.now).channels) (S.written out.old) (S.written out.new)
        (S.faults out.old) (S.faults out.new) result }
{
    for (c, name) in names.iter().enumerate() {
        write_channel_at(out, turn, name, c, machine, told, now)?;
    }
    Ok(())
}

// What changed of a channel, if there is one of this number.
fn write_channel_at<S: Sink, L: Ledger>(
    out: &mut S,
    turn: u32,
    name: &Text,
    c: usize,
    machine: &Machine<'_, L>,
    told: &[Numbers],
    now: &[Numbers],
) -> Result<(), Failed>
    requires steady { IsSteady machine.now }
    requires now { now.now ≡ (noted_now machine.now).channels }
    ensures { Puts (change_of (channel_changes turn name.now) (slice_get told.now c) (slice_get (shown_now machine.now).channels c))
        (S.written out.old) (S.written out.new) (S.faults out.old) (S.faults out.new) result }
{
    let Some(was) = told.get(c) else {
        return Ok(());
    };
    let Some(one) = now.get(c) else {
        return Ok(());
    };
    let last = last_sent(machine, c as u32, one.sent);
    write_channel(out, turn, name.as_bytes(), *was, *one, last)
}

// The value that was sent last on a channel, and 0 before the first.
fn last_sent<L: Ledger>(machine: &Machine<'_, L>, channel: u32, sent: u64) -> i64
    ensures { result ≡ last_in machine.now.code.channels machine.now.world.memory.slots channel sent }
{
    if sent == 0 {
        0
    } else {
        machine.last_message(channel, sent)
    }
}
