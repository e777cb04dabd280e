//! The lines of one turn.

ghost use Rattle.std.specs.Prelude.{◌≡◌, ℕ, ◌^◌, ◌<◌, [], ◌∷◌, ◌++◌, cond, length, replicate, slice_set, OnOk};
ghost use Rattle.std.specs.List.{flat_map};
ghost use Rattle.rb_base.specs.Lines.{belonging};
ghost use Rattle.rb_outside.specs.Puts.{Puts};
ghost use Rattle.rb_world.specs.Text.{told_text, out_lines, is_done};
ghost use Rattle.rb_trace.specs.Naming.{naming};
ghost use Rattle.rb_trace.specs.Report.{told_of, event_if, out_line};

use crate::event::{write_event, write_out};
use rb_base::{Event, Lines, Names, Report};
use rb_outside::{Failed, Sink};

/// Writes the lines of a turn: its events but `done`, the released lines of each process in order, and the `done`
/// lines. After `Ok` no released line of a process waits; after either answer the rest of `lines` is as before.
pub fn write_report<S: Sink, M: Lines>(
    out: &mut S,
    turn: u32,
    report: &Report,
    names: &Names,
    lines: &mut M,
) -> Result<(), Failed>
    requires fit { length (M.waiting lines.old) ≡ length names.now.processes.items }
    ensures text { Puts
        (told_text (naming names.now) turn (told_of report.now.kind report.now.events.items (M.waiting lines.old)))
        (S.written out.old) (S.written out.new) (S.faults out.old) (S.faults out.new) result }
    ensures none_waits { OnOk result (M.waiting lines.new ≡ replicate (length (M.waiting lines.old)) []) }
    ensures rest { M.rest lines.new ≡ M.rest lines.old }
{
    write_events(out, turn, &report.events, names, false)?;
    write_all_released(out, turn, names, lines)?;
    write_events(out, turn, &report.events, names, true)
}

// Writes the `done` lines of these events, or the lines of all others.
fn write_events<S: Sink>(
    out: &mut S,
    turn: u32,
    events: &[Event],
    names: &Names,
    done: bool,
) -> Result<(), Failed>
    ensures { Puts (flat_map (event_if (naming names.now) turn done) events.now) (S.written out.old) (S.written out.new)
        (S.faults out.old) (S.faults out.new) result }
{
    for event in events {
        write_event_if(out, turn, event, names, done)?;
    }
    Ok(())
}

fn write_event_if<S: Sink>(
    out: &mut S,
    turn: u32,
    event: &Event,
    names: &Names,
    done: bool,
) -> Result<(), Failed>
    ensures { Puts (event_if (naming names.now) turn done event.now) (S.written out.old) (S.written out.new)
        (S.faults out.old) (S.faults out.new) result }
{
    if tells_done(event) == done {
        write_event(out, turn, event, names)
    } else {
        Ok(())
    }
}

fn tells_done(event: &Event) -> bool
    ensures { result ≡ is_done event.now }
{
    match event {
        Event::Done { .. } => true,
        Event::Reject { .. } | Event::RejectAll { .. } | Event::Error { .. } | Event::Pass { .. } =>
            false,
    }
}

// The released lines of each process, in the order of the processes.
fn write_all_released<S: Sink, M: Lines>(
    out: &mut S,
    turn: u32,
    names: &Names,
    lines: &mut M,
) -> Result<(), Failed>
    requires fit { length (M.waiting lines.old) ≡ length names.now.processes.items }
    ensures text { Puts (out_lines (naming names.now) turn 0 (M.waiting lines.old)) (S.written out.old) (S.written out.new)
        (S.faults out.old) (S.faults out.new) result }
    ensures none_waits { OnOk result (M.waiting lines.new ≡ replicate (length (M.waiting lines.old)) []) }
    ensures rest { M.rest lines.new ≡ M.rest lines.old }
{
    let processes = names.processes.len() as u32;
    for process in 0..processes {
        write_released(out, turn, process, names, lines)?;
    }
    Ok(())
}

// The released lines of one process.
fn write_released<S: Sink, M: Lines>(
    out: &mut S,
    turn: u32,
    process: u32,
    names: &Names,
    lines: &mut M,
) -> Result<(), Failed>
    requires { process < length (M.waiting lines.old) }
    ensures text { Puts (flat_map (out_line (naming names.now) turn process) (belonging (M.waiting lines.old) process))
        (S.written out.old) (S.written out.new) (S.faults out.old) (S.faults out.new) result }
    ensures none_waits { OnOk result (M.waiting lines.new ≡ slice_set (M.waiting lines.old) process []) }
    ensures rest { M.rest lines.new ≡ M.rest lines.old }
{
    'lines: while let Some(line) = lines.released(process) {
        write_out(out, turn, process, line, names)?;
    }
    Ok(())
}
