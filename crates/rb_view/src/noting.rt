//! How a machine stands, kept in mind: it is read between two turns.

ghost use Rattle.std.specs.Prelude.{◌≡◌, ◌+◌, ◌<◌, ◌≤◌, ◌^◌, [], ◌∷◌, ◌++◌, length, map, slice_get, vec_capacity, vec_len, Some};
ghost use Rattle.rb_base.specs.declared.limits.TheConstants.{MOST_OPEN_LEVELS};
ghost use Rattle.rb_base.specs.Lines.{belonging};
ghost use Rattle.rb_code.specs.WordMachine.Turn.{Copy, Standing};
ghost use Rattle.rb_code.specs.WordMachine.Workspace.{part_of};
ghost use Rattle.rb_recovery.specs.Reading.{variables_of};
ghost use Rattle.rb_changes.specs.Noted.{noted_of, process_noted, talk_of};
ghost use Rattle.rb_changes.specs.Shown.{channel_of, level_shown, process_shown, stand_of};
ghost use Rattle.rb_picture.specs.Trace.{word_reading};
ghost use Rattle.rb_world.specs.Kind.{Ends};
ghost use Rattle.rb_world.specs.World.{Level, Process, Running, Talk};
ghost use Rattle.rb_view.specs.Noting.{AreReady, IsReady, noted, processes_noted, talks_noted, words_long};
ghost use Rattle.rb_view.specs.Steady.{IsSized, IsSteady, noted_now};

use crate::asking::is_at_line;
use crate::was::Noted;
use rb_base::{Final, Steps};
use rb_machine::Machine;
use rb_picture::{Numbers, OpenLevel, ProcessWas, Stand, TalkNoted};
use rb_proc::ProcessStatus;
use std::sync::ledger::Ledger;

/// Keeps in mind how a machine stands.
pub(crate) fn note<L: Ledger>(machine: &Machine<'_, L>, kept: &mut Noted, steps: &mut Steps<L>)
    requires steady { IsSteady machine.now }
    requires sized { IsSized machine.now.code machine.now.groups (noted kept.old) }
    requires ready { AreReady kept.old.processes.items }
    ensures noted { noted kept.new ≡ noted_now machine.now }
    ensures ready { AreReady kept.new.processes.items }
{
    note_processes(machine, &mut kept.processes, steps);
    note_channels(machine, &mut kept.channels, steps);
    note_talks(machine, &mut kept.talks);
}

fn note_processes<L: Ledger>(
    machine: &Machine<'_, L>,
    kept: &mut Vec<ProcessWas>,
    steps: &mut Steps<L>,
)
    requires steady { IsSteady machine.now }
    requires sized { map words_long (processes_noted kept.old.items) ≡ map (λ part. part.words) machine.now.code.processes }
    requires ready { AreReady kept.old.items }
    ensures noted { processes_noted kept.new.items ≡ (noted_now machine.now).processes }
    ensures ready { AreReady kept.new.items }
{
    for p in 0..kept.len() {
        note_process(machine, p as u32, &mut kept[p], steps);
    }
}

// How a process stands. Its words are as many as they were.
fn note_process<L: Ledger>(
    machine: &Machine<'_, L>,
    p: u32,
    kept: &mut ProcessWas,
    steps: &mut Steps<L>,
)
    requires steady { IsSteady machine.now }
    requires process { p < length machine.now.world.processes }
    requires words { length kept.old.words.items ≡ (part_of machine.now.code p).words }
    requires ready { IsReady kept.old }
    ensures noted { (q : Process Standing Copy) → slice_get machine.now.world.processes p ≡ Some q
        → noted_of kept.new ≡ process_noted (process_shown (word_reading machine.now.code machine.now.groups []) machine.now.world.memory q) }
    ensures words { length kept.new.words.items ≡ length kept.old.words.items }
    ensures ready { IsReady kept.new }
{
    note_words(machine, p, &mut kept.words, steps);
    note_levels(machine, p, &mut kept.levels);
    kept.held = machine.held_lines(p);
    kept.stand = stand_at(machine, p);
}

// The words of the variables of process p.
fn note_words<L: Ledger>(
    machine: &Machine<'_, L>,
    p: u32,
    words: &mut Vec<i64>,
    steps: &mut Steps<L>,
)
    requires long { length words.old.items ≡ length (belonging (variables_of machine.now.code machine.now.world.processes) p) }
    requires few { length words.old.items < 2 ^ 32 }
    ensures { words.new.items ≡ belonging (variables_of machine.now.code machine.now.world.processes) p }
{
    for at in 0..words.len() {
        words[at] = machine.word(p, at as u32, steps);
    }
}

// The open levels of process p, from the outside in.
fn note_levels<L: Ledger>(machine: &Machine<'_, L>, p: u32, levels: &mut Vec<OpenLevel>)
    requires process { p < length machine.now.world.processes }
    requires steady { IsSteady machine.now }
    requires room { MOST_OPEN_LEVELS ≤ vec_capacity levels.old }
    ensures room { vec_capacity levels.old ≤ vec_capacity levels.new }
    ensures few { length levels.new.items ≤ MOST_OPEN_LEVELS }
    ensures levels { (q : Process Standing Copy) → slice_get machine.now.world.processes p ≡ Some q
        → levels.new.items ≡ map (level_shown (word_reading machine.now.code machine.now.groups []) machine.now.world.memory) q.levels }
{
    levels.clear();
    for k in 0..machine.levels(p) {
        add(levels, level_at(machine, p, k));
    }
}

// Adds a level, for which there is room.
fn add(levels: &mut Vec<OpenLevel>, level: OpenLevel)
    requires { vec_len levels.old < vec_capacity levels.old }
    ensures items { levels.new.items ≡ levels.old.items ++ level ∷ [] }
    ensures len { vec_len levels.new ≡ vec_len levels.old + 1 }
    ensures room { vec_capacity levels.old ≤ vec_capacity levels.new }
{
    levels.push(level).unwrap();
}

// An open level of process p, and the turn of its entry.
fn level_at<L: Ledger>(machine: &Machine<'_, L>, p: u32, k: u32) -> OpenLevel
    requires process { p < length machine.now.world.processes }
    requires level { (q : Process Standing Copy) → slice_get machine.now.world.processes p ≡ Some q → k < length q.levels }
    ensures { (q : Process Standing Copy) (level : Level Copy) → slice_get machine.now.world.processes p ≡ Some q → slice_get q.levels k ≡ Some level
        → result ≡ level_shown (word_reading machine.now.code machine.now.groups []) machine.now.world.memory level }
{
    let view = machine.level(p, k);
    OpenLevel {
        block: view.block,
        alternate: view.alternate,
        used: view.used,
        entered: machine.entered(p, k),
    }
}

// How process p stands.
fn stand_at<L: Ledger>(machine: &Machine<'_, L>, p: u32) -> Stand
    requires { p < length machine.now.world.processes }
    ensures { (q : Process Standing Copy) → slice_get machine.now.world.processes p ≡ Some q → result ≡ stand_of q.status q.at_line }
{
    match machine.status(p) {
        ProcessStatus::Running => stand_running(is_at_line(machine, p)),
        ProcessStatus::Finished => Stand::Done,
        ProcessStatus::Failed(cause) => Stand::Failed(cause),
    }
}

fn stand_running(at_line: bool) -> Stand
    ensures { result ≡ stand_of Running at_line }
{
    if at_line { Stand::AtLine } else { Stand::Runs }
}

fn note_channels<L: Ledger>(machine: &Machine<'_, L>, kept: &mut Vec<Numbers>, steps: &mut Steps<L>)
    requires steady { IsSteady machine.now }
    requires sized { length kept.old.items ≡ length machine.now.code.channels }
    ensures { kept.new.items ≡ (noted_now machine.now).channels }
{
    for channel in 0..kept.len() {
        kept[channel] = numbers_of(machine, channel as u32, steps);
    }
}

// The numbers of a channel.
fn numbers_of<L: Ledger>(machine: &Machine<'_, L>, channel: u32, steps: &mut Steps<L>) -> Numbers
    requires steady { IsSteady machine.now }
    requires channel { channel < length machine.now.code.channels }
    ensures { (ends : Ends) → slice_get machine.now.code.channels channel ≡ Some ends
        → result ≡ (channel_of (word_reading machine.now.code machine.now.groups []) machine.now.world.memory channel ends.size
        (slice_get machine.now.world.processes ends.sender) (slice_get machine.now.world.processes ends.receiver)).numbers }
{
    let view = machine.channel_view(channel, steps);
    Numbers {
        sent: view.sent,
        taken: view.taken,
        seen: view.seen,
        free: view.free,
    }
}

fn note_talks<L: Ledger>(machine: &Machine<'_, L>, kept: &mut Vec<TalkNoted>)
    requires steady { IsSteady machine.now }
    requires sized { length kept.old.items ≡ length machine.now.groups }
    ensures { talks_noted kept.new.items ≡ machine.now.world.talks }
{
    for d in 0..kept.len() {
        kept[d] = talk_at(machine, d as u32);
    }
}

// A conversation as it stands.
fn talk_at<L: Ledger>(machine: &Machine<'_, L>, conversation: u32) -> TalkNoted
    requires { conversation < length machine.now.world.talks }
    ensures { (talk : Talk) → slice_get machine.now.world.talks conversation ≡ Some talk → talk_of result ≡ talk }
{
    TalkNoted {
        alternate: machine.alternate(conversation),
        is_broken: machine.is_broken(conversation),
    }
}
