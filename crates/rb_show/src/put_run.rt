//! A run that is written turn by turn: its trace, by itself or in a page.
ghost use Rattle.std.specs.Prelude.{◌≡◌, ◌≤◌, ◌<◌, ◌++◌, ℕ, false, List, Option, length, option_map, Err};
ghost use Rattle.rb_outside.specs.Outside.{Faults};
ghost use Rattle.rb_base.specs.declared.limits.TheConstants.{MOST_TURNS};
ghost use Rattle.rb_code.specs.Instructions.Plain.{code as plain};
ghost use Rattle.rb_code.specs.SoundCode.WellFormed.{IsSound};
ghost use Rattle.rb_conv.specs.Conversations.{memberships, opening};
ghost use Rattle.rb_machine.specs.Machine.{opening_seen};
ghost use Rattle.rb_recovery.specs.Worlds.{counts_of};
ghost use Rattle.rb_outside.specs.Puts.{Puts};
ghost use Rattle.rb_page.specs.Escape.{escaped};
ghost use Rattle.rb_page.specs.Page.{page_text};
ghost use Rattle.rb_picture.specs.Trace.{before_opening};
ghost use Rattle.rb_run.specs.Running.{NamesFit};
ghost use Rattle.rb_turns.specs.Written.{PutsOrMemory};
ghost use Rattle.rb_show.specs.Drawing.{EndsDrawn, text_in};
ghost use Rattle.rb_show.specs.Traced.{IsTraced, trace_over};

use crate::traced::Traced;
use rb_base::{MOST_BYTES, Steps};
use rb_commands::Why;
use rb_hall::{Fault, Unwritten, Written};
use rb_machine::Machine;
use rb_outside::{Failed, Sink, put_all};
use rb_page::{Escaped, Page};
use rb_sched::Schedule;
use rb_view::{Was, write_trace};
use std::alloc::Global;
use std::marker::Brand;
use std::sync::ledger::{Blank, Ledger};

/// Judges a schedule for a source, and writes the trace of the run of the one over the other, in a page with the texts of both if there is one.
pub fn draw<S: Sink + Drop>(
    alloc: Global,
    page: Option<&[u8]>,
    source: &[u8],
    traced: Traced,
    schedule: &[u8],
    out: S,
) -> Written<S, Why>
    requires traced { IsTraced source.now traced }
    requires short { length schedule.now ≤ MOST_BYTES }
    ensures { (ready : IsTraced source.now traced) → EndsDrawn (option_map (λ p. p.now) page.entry) source.now ready.prepared.tree schedule.now
        (S.written out) (S.written result.sink) (S.faults out) (S.faults result.sink) result.ended }
{
    let fault = match Schedule::read(schedule, &traced.prepared.code.names) {
        Ok(turns) => {
            return draw_turns::<S, Brand>(
                alloc,
                page,
                source,
                schedule,
                &traced,
                turns,
                out,
                Blank::new(1),
            );
        }
        Err(fault) => fault,
    };
    Written {
        sink: out,
        ended: Err(Unwritten::Refused(Fault::Text(fault), Why::Names(traced.into_names()))),
    }
}

// Runs the code of a source over the turns of a schedule, and writes the trace of the run, in a page with the texts of both if there is one.
// The ledger counts steps, which contracts alone see.
fn draw_turns<S: Sink + Drop, L: Ledger>(
    alloc: Global,
    page: Option<&[u8]>,
    source: &[u8],
    text: &[u8],
    traced: &Traced,
    schedule: Schedule<'_>,
    out: S,
    blank: Blank,
) -> Written<S, Why>
    requires name { blank.name ≡ L.name }
    requires parts { blank.parts ≡ L.parts }
    requires backed { 0 < blank.parts }
    requires sound { IsSound (plain traced.now.prepared.code) (memberships (opening traced.now.prepared.nested)) (counts_of (opening traced.now.prepared.nested)) }
    requires fit { NamesFit (plain traced.now.prepared.code) traced.now.prepared.code.names }
    requires whole { schedule.left ≡ schedule.all }
    requires turns { length schedule.left ≤ MOST_TURNS }
    ensures { PutsOrMemory (text_in (option_map (λ p. p.now) page.entry) source.now text.now (trace_over traced.now schedule.entry.all))
        (S.written out) (S.written result.sink) (S.faults out) (S.faults result.sink) result.ended }
{
    let mut steps = Steps::<L>::start(blank);
    let turns = schedule.turns();
    let prepared = &traced.prepared;
    let Ok(mut was) = Was::new(alloc, &prepared.code, &prepared.nested) else {
        return short_of_memory(out);
    };
    match Machine::load(alloc, &prepared.code, &prepared.nested, turns, &mut steps) {
        Ok(mut machine) => written_after(put_in(
            &mut machine,
            page,
            source,
            text,
            traced,
            &mut was,
            schedule,
            out,
            &mut steps,
        )),
        Err(_) => short_of_memory(out),
    }
}

// Memory was wanting before anything was written.
fn short_of_memory<S: Sink + Drop>(sink: S) -> Written<S, Why>
    ensures { result ≡ record { sink = sink; ended = Err Unwritten.Memory } }
{
    Written {
        sink,
        ended: Err(Unwritten::Memory),
    }
}

// How a command ends after its text was put.
fn written_after<S: Sink + Drop>(put: (S, Result<(), Failed>)) -> Written<S, Why>
    ensures { (bytes : List ℕ) (start : Option (List ℕ)) (faults : Faults) → Puts bytes start (S.written put.0) faults (S.faults put.0) put.1
        → PutsOrMemory bytes start (S.written result.sink) faults (S.faults result.sink) result.ended }
{
    let (sink, written) = put;
    let ended = match written {
        Ok(()) => Ok(()),
        Err(_) => Err(Unwritten::Fault),
    };
    Written { sink, ended }
}

// Writes the trace of a run from its start, in a page if there is one.
fn put_in<S: Sink, L: Ledger>(
    machine: &mut Machine<'_, L>,
    page: Option<&[u8]>,
    source: &[u8],
    text: &[u8],
    traced: &Traced,
    was: &mut Was,
    schedule: Schedule<'_>,
    out: S,
    steps: &mut Steps<L>,
) -> (S, Result<(), Failed>)
    requires fresh { machine.old ≡ opening_seen (plain traced.now.prepared.code) (memberships (opening traced.now.prepared.nested)) false machine.old.most }
    requires fit { NamesFit (plain traced.now.prepared.code) traced.now.prepared.code.names }
    requires before { was.old ≡ before_opening (plain traced.now.prepared.code) (memberships (opening traced.now.prepared.nested)) }
    requires whole { schedule.left ≡ schedule.all }
    requires turns { length schedule.left ≤ machine.old.most }
    ensures { Puts (text_in (option_map (λ p. p.now) page.entry) source.now text.now (trace_over traced.now schedule.entry.all))
        (S.written out) (S.written result.0) (S.faults out) (S.faults result.0) result.1 }
{
    match page {
        Some(page) => put_page(
            machine, page, source, text, traced, was, schedule, out, steps,
        ),
        None => {
            let mut out = out;
            let prepared = &traced.prepared;
            let written = write_trace(
                machine,
                &prepared.code,
                &prepared.nested,
                traced.places.as_slice(),
                was,
                schedule,
                &mut out,
                steps,
            );
            (out, written)
        }
    }
}

// Writes a page with the texts of a source and a schedule and the trace in their places.
fn put_page<S: Sink, L: Ledger>(
    machine: &mut Machine<'_, L>,
    page: &[u8],
    source: &[u8],
    text: &[u8],
    traced: &Traced,
    was: &mut Was,
    schedule: Schedule<'_>,
    out: S,
    steps: &mut Steps<L>,
) -> (S, Result<(), Failed>)
    requires fresh { machine.old ≡ opening_seen (plain traced.now.prepared.code) (memberships (opening traced.now.prepared.nested)) false machine.old.most }
    requires fit { NamesFit (plain traced.now.prepared.code) traced.now.prepared.code.names }
    requires before { was.old ≡ before_opening (plain traced.now.prepared.code) (memberships (opening traced.now.prepared.nested)) }
    requires whole { schedule.left ≡ schedule.all }
    requires turns { length schedule.left ≤ machine.old.most }
    ensures { Puts (page_text page.now source.now text.now (trace_over traced.now schedule.entry.all))
        (S.written out) (S.written result.0) (S.faults out) (S.faults result.0) result.1 }
{
    let page = Page::cut(page);
    let mut out = out;
    match page.put_before_trace(&mut out, source, text) {
        Ok(()) => {
            let (mut out, written) = put_escaped_trace(machine, traced, was, schedule, out, steps);
            let ended = put_behind(&mut out, written, page.rest);
            (out, ended)
        }
        Err(failed) => (out, Err(failed)),
    }
}

// Writes what stands behind a trace, unless a write failed before.
fn put_behind<S: Sink>(out: &mut S, written: Result<(), Failed>, rest: &[u8]) -> Result<(), Failed>
    ensures { (bytes : List ℕ) (start : Option (List ℕ)) (faults : Faults) → Puts bytes start (S.written out.old) faults (S.faults out.old) written
        → Puts (bytes ++ rest.now) start (S.written out.new) faults (S.faults out.new) result }
{
    written?;
    put_all(out, rest)
}

// Writes the trace as it stands in a page.
fn put_escaped_trace<S: Sink, L: Ledger>(
    machine: &mut Machine<'_, L>,
    traced: &Traced,
    was: &mut Was,
    schedule: Schedule<'_>,
    out: S,
    steps: &mut Steps<L>,
) -> (S, Result<(), Failed>)
    requires fresh { machine.old ≡ opening_seen (plain traced.now.prepared.code) (memberships (opening traced.now.prepared.nested)) false machine.old.most }
    requires fit { NamesFit (plain traced.now.prepared.code) traced.now.prepared.code.names }
    requires before { was.old ≡ before_opening (plain traced.now.prepared.code) (memberships (opening traced.now.prepared.nested)) }
    requires whole { schedule.left ≡ schedule.all }
    requires turns { length schedule.left ≤ machine.old.most }
    ensures { Puts (escaped (trace_over traced.now schedule.entry.all))
        (S.written out) (S.written result.0) (S.faults out) (S.faults result.0) result.1 }
{
    let mut escaped = Escaped::before(out);
    let prepared = &traced.prepared;
    let written = write_trace(
        machine,
        &prepared.code,
        &prepared.nested,
        traced.places.as_slice(),
        was,
        schedule,
        &mut escaped,
        steps,
    );
    escaped.finish(written)
}
