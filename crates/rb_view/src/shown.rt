//! Which processes were put back, and which conversations are others now, written.

ghost use Rattle.std.specs.Prelude.{[], map, slice_get};
ghost use Rattle.rb_outside.specs.Puts.{Puts};
ghost use Rattle.rb_trace.specs.Naming.{process_naming};
ghost use Rattle.rb_changes.specs.Changes.{all_back, all_talks, back_of, change_of, talk_changes};
ghost use Rattle.rb_changes.specs.Noted.{shown_with};
ghost use Rattle.rb_view.specs.Noting.{back_shown, noted, processes_noted, talks_noted};

use crate::was::Noted;
use rb_base::{ProcessNames, Text, TurnKind};
use rb_changes::between::write_talk;
use rb_changes::levels::write_return;
use rb_outside::{Failed, Sink};
use rb_picture::{ProcessWas, TalkNoted};

/// Writes which processes were put back, which only a turn does that was undone.
pub(crate) fn write_back<S: Sink>(
    out: &mut S,
    turn: u32,
    kind: TurnKind,
    processes: &[ProcessNames],
    told: &Noted,
    now: &Noted,
) -> Result<(), Failed>
    ensures { Puts (back_shown kind turn (map process_naming processes.now) (noted told.now).processes (map (shown_with []) now.now.processes.items))
        (S.written out.old) (S.written out.new) (S.faults out.old) (S.faults out.new) result }
{
    match kind {
        TurnKind::Undone => write_returns(out, turn, processes, &told.processes, &now.processes),
        TurnKind::Idle | TurnKind::Wait | TurnKind::Took => Ok(()),
    }
}

fn write_returns<S: Sink>(
    out: &mut S,
    turn: u32,
    processes: &[ProcessNames],
    told: &[ProcessWas],
    now: &[ProcessWas],
) -> Result<(), Failed>
    ensures { Puts (all_back turn (map process_naming processes.now) (processes_noted told.now) (map (shown_with []) now.now))
        (S.written out.old) (S.written out.new) (S.faults out.old) (S.faults out.new) result }
{
    for (p, process) in processes.iter().enumerate() {
        write_return_at(out, turn, process, p, told, now)?;
    }
    Ok(())
}

// To which recovery point process p went back, if there is one that did.
fn write_return_at<S: Sink>(
    out: &mut S,
    turn: u32,
    process: &ProcessNames,
    p: usize,
    told: &[ProcessWas],
    now: &[ProcessWas],
) -> Result<(), Failed>
    ensures { Puts
        (change_of (back_of turn (process_naming process.now)) (slice_get (processes_noted told.now) p)
        (slice_get (map (shown_with []) now.now) p)) (S.written out.old) (S.written out.new) (S.faults out.old) (S.faults out.new) result }
{
    let Some(was) = told.get(p) else {
        return Ok(());
    };
    let Some(one) = now.get(p) else {
        return Ok(());
    };
    write_return(out, turn, process.name.as_bytes(), &was.levels, &one.levels)
}

/// Writes what changed of conversations.
pub(crate) fn write_talks<S: Sink>(
    out: &mut S,
    turn: u32,
    names: &[Text],
    told: &[TalkNoted],
    now: &[TalkNoted],
) -> Result<(), Failed>
    ensures { Puts (all_talks turn names.now (talks_noted told.now) (talks_noted now.now)) (S.written out.old) (S.written out.new)
        (S.faults out.old) (S.faults out.new) result }
{
    for (d, name) in names.iter().enumerate() {
        write_talk_at(out, turn, name, d, told, now)?;
    }
    Ok(())
}

// What changed of a conversation, if there is one of this number.
fn write_talk_at<S: Sink>(
    out: &mut S,
    turn: u32,
    name: &Text,
    d: usize,
    told: &[TalkNoted],
    now: &[TalkNoted],
) -> Result<(), Failed>
    ensures { Puts (change_of (talk_changes turn name.now) (slice_get (talks_noted told.now) d) (slice_get (talks_noted now.now) d))
        (S.written out.old) (S.written out.new) (S.faults out.old) (S.faults out.new) result }
{
    let Some(was) = told.get(d) else {
        return Ok(());
    };
    let Some(one) = now.get(d) else {
        return Ok(());
    };
    write_talk(out, turn, name.as_bytes(), *was, *one)
}
