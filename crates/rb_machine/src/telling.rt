//! What is told at the end of a turn: errors, the pass of a test line, and who is done; and held lines are released.

ghost use Rattle.std.specs.Prelude.{◌≡◌, ℕ, ◌+◌, ◌*◌, ◌<◌, ◌≤◌, ◌^◌, ◌++◌, true, false, List, [], get_or, length, map, replicate, set, sum_by};
ghost use Rattle.std.specs.Option.{option_to_list};
ghost use Rattle.rb_base.specs.declared.limits.TheConstants.{MOST_HELD_BYTES};
ghost use Rattle.rb_world.specs.Kind.{Membership};
ghost use Rattle.rb_world.specs.Turn.{finished_at, freed, lines_freed};
ghost use Rattle.rb_world.specs.World.{Process};
ghost use Rattle.rb_code.specs.Instructions.Plain.{Code as Plain};
ghost use Rattle.rb_code.specs.WordMachine.Turn.{Copy, Standing};
ghost use Rattle.rb_code.specs.WordMachine.WordKind.{word_kind};
ghost use Rattle.rb_proc.specs.Process.{Seen};
ghost use Rattle.rb_proc.specs.Statuses.{status_of};
ghost use Rattle.rb_recovery.specs.TestLines.{passes_of};
ghost use Rattle.rb_machine.specs.Telling.{GoesOnThere, WasAlone, ended_by, ended_if, ends_told, freed_one, is_running, running_of};
ghost use Rattle.rb_recovery.specs.Work.{releases_some, releasing};
ghost use Rattle.rb_recovery.specs.Worlds.{NoneWaits, lines_of, processes_of};

use crate::came::Came;
use arrayvec::ArrayVec;
use rb_base::{Event, MOST_EVENTS, MOST_PROCESSES_SECOND, Steps};
use rb_proc::{Proc, ProcessStatus};
use std::sync::ledger::Ledger;

/// How a process can end, and is told to.
#[derive(Clone, Copy)]
pub(crate) enum Ending {
    Failed,
    Done,
}

/// Adds to the rejections of a turn who has failed in it, the pass of a test line, and who is done in it, by who ran before it; and notes
/// who still runs.
#[inline(never)]
pub fn tell<L: Ledger>(
    procs: &[Proc<L>],
    running: &mut [bool],
    pass: Option<Event>,
    events: &mut ArrayVec<Event, MOST_EVENTS>,
)
    requires as_many { length running.old ≡ length procs.now }
    requires numbered { length procs.now < 2 ^ 32 }
    requires room { length events.old.items + (length (passes_of pass) + length procs.now) ≤ MOST_EVENTS }
    ensures told { (before : List (Process Standing Copy)) → running_of before ≡ running.old
        → events.new.items ≡ events.old.items ++ ends_told before (processes_of procs.now) pass }
    ensures running { running.new ≡ running_of (processes_of procs.now) }
{
    tell_ended(procs, running, Ending::Failed, events);
    add(events, pass);
    tell_ended(procs, running, Ending::Done, events);
    note_running(procs, running);
}

/// Who is done before the first turn.
pub fn tell_opening<L: Ledger>(procs: &[Proc<L>], events: &mut ArrayVec<Event, MOST_EVENTS>)
    requires few { length procs.now ≤ MOST_PROCESSES_SECOND }
    requires none { length events.old.items ≡ 0 }
    ensures { events.new.items ≡ finished_at 0 (processes_of procs.now) }
{
    let running = [true; MOST_PROCESSES_SECOND];
    tell_ended(procs, &running[..procs.len()], Ending::Done, events);
}

/// Ends a turn of process p: tells who has ended in it, notes who still runs, and releases held lines. Where the turn touched no other
/// process it looks at p alone, and where it ends quietly at none. False where no released line waits.
#[inline(always)]
pub fn finish<L: Ledger>(
    procs: &mut [Proc<L>],
    running: &mut [bool],
    p: u32,
    alone: bool,
    came: Came,
    events: &mut ArrayVec<Event, MOST_EVENTS>,
    steps: &mut Steps<L>,
) -> bool
    requires as_many { length running.old ≡ length procs.old }
    requires numbered { length procs.old < 2 ^ 32 }
    requires room { length events.old.items + (length (passes_of came.pass) + length procs.old) ≤ MOST_EVENTS }
    requires waits { NoneWaits procs.old }
    requires quiet { came.quiet ≡ true → (alone ≡ true) × GoesOnThere running.old procs.old p }
    requires alone { alone ≡ true → (passes_of came.pass ≡ []) × WasAlone p running.old (processes_of procs.old) }
    ensures told { (before : List (Process Standing Copy)) → running_of before ≡ running.old
        → events.new.items ≡ events.old.items ++ ends_told before (processes_of procs.old) came.pass }
    ensures running { running.new ≡ running_of (processes_of procs.old) }
    ensures processes { (c : Plain) (groups : List Membership) → processes_of procs.new ≡ map (freed (word_kind c groups)) (processes_of procs.old) }
    ensures lines { (c : Plain) (groups : List Membership)
        → lines_of procs.new ≡ map (λ (q : Process Standing Copy). lines_freed (word_kind c groups) q.state q.levels) (processes_of procs.old) }
    ensures none_waits { result ≡ false → NoneWaits procs.new }
    ensures work { steps.new ≤ steps.old + 2 * releasing (lines_of procs.new) }
{
    if came.quiet {
        return false;
    }
    if alone {
        return finish_one(procs, running, p, events, steps);
    }
    tell(procs, running, came.pass, events);
    release_all(procs, steps);
    true
}

// The same of process p alone, if it is there.
#[inline(always)]
fn finish_one<L: Ledger>(
    procs: &mut [Proc<L>],
    running: &mut [bool],
    p: u32,
    events: &mut ArrayVec<Event, MOST_EVENTS>,
    steps: &mut Steps<L>,
) -> bool
    requires as_many { length running.old ≡ length procs.old }
    requires room { length events.old.items + length procs.old ≤ MOST_EVENTS }
    requires waits { NoneWaits procs.old }
    requires alone { WasAlone p running.old (processes_of procs.old) }
    ensures told { events.new.items
        ≡ events.old.items
        ++ (ended_by Ending.Failed 0 running.old (processes_of procs.old) ++ ended_by Ending.Done 0 running.old (processes_of procs.old)) }
    ensures running { running.new ≡ running_of (processes_of procs.old) }
    ensures freed { (c : Plain) → procs.new ≡ map (freed_one c) procs.old }
    ensures none_waits { result ≡ false → NoneWaits procs.new }
    ensures work { steps.new ≤ steps.old + 2 * releasing (lines_of procs.new) }
{
    let place = p as usize;
    if place >= procs.len() {
        return false;
    }
    note_end(&procs[place], running, p, events);
    release_one(&mut procs[place], steps)
}

// Notes whether process p still runs, and tells where it has ended.
#[inline(always)]
fn note_end<L: Ledger>(
    proc: &Proc<L>,
    running: &mut [bool],
    p: u32,
    events: &mut ArrayVec<Event, MOST_EVENTS>,
)
    requires place { p < length running.old }
    requires room { length events.old.items + 1 ≤ MOST_EVENTS }
    ensures told { events.new.items
        ≡ events.old.items
        ++ (ended_if Ending.Failed p (get_or running.old p false) proc.now.process.status
        ++ ended_if Ending.Done p (get_or running.old p false) proc.now.process.status) }
    ensures running { running.new ≡ set running.old p (is_running proc.now.process.status) }
{
    if runs(proc.status()) {
        running[p as usize] = true;
    } else {
        tell_end(proc, running, p, events);
    }
}

// The same of a process that has ended.
#[cold]
#[inline(never)]
fn tell_end<L: Ledger>(
    proc: &Proc<L>,
    running: &mut [bool],
    p: u32,
    events: &mut ArrayVec<Event, MOST_EVENTS>,
)
    requires place { p < length running.old }
    requires room { length events.old.items + 1 ≤ MOST_EVENTS }
    requires ended { is_running proc.now.process.status ≡ false }
    ensures told { events.new.items
        ≡ events.old.items
        ++ (ended_if Ending.Failed p (get_or running.old p false) proc.now.process.status
        ++ ended_if Ending.Done p (get_or running.old p false) proc.now.process.status) }
    ensures running { running.new ≡ set running.old p false }
{
    add(events, ending_of(p, running[p as usize], proc.status()));
    running[p as usize] = false;
}

// The event of a process that has ended, if it ran.
fn ending_of(process: u32, ran: bool, status: ProcessStatus) -> Option<Event>
    ensures event { option_to_list result
        ≡ ended_if Ending.Failed process ran (status_of status) ++ ended_if Ending.Done process ran (status_of status) }
    ensures one { length (option_to_list result) ≤ 1 }
{
    if !ran {
        return None;
    }
    match status {
        ProcessStatus::Running => None,
        ProcessStatus::Finished => Some(Event::Done { process }),
        ProcessStatus::Failed(cause) => Some(Event::Error { process, cause }),
    }
}

// Releases the held lines of a process, if it has no level. False where no released line waits.
#[inline(always)]
fn release_one<L: Ledger>(proc: &mut Proc<L>, steps: &mut Steps<L>) -> bool
    requires waits { proc.old.waiting ≡ [] }
    ensures freed { (c : Plain) → proc.new ≡ freed_one c proc.old }
    ensures none_waits { result ≡ false → proc.new.waiting ≡ [] }
    ensures work { steps.new ≤ steps.old + 2 * releases_some proc.new.waiting }
{
    let releases = proc.may_release();
    proc.release_if_free(steps);
    releases
}

// Adds who has ended so, of those that ran.
fn tell_ended<L: Ledger>(
    procs: &[Proc<L>],
    running: &[bool],
    ending: Ending,
    events: &mut ArrayVec<Event, MOST_EVENTS>,
)
    requires as_many { length running.now ≡ length procs.now }
    requires numbered { length procs.now < 2 ^ 32 }
    requires room { length events.old.items + length (ended_by ending 0 running.now (processes_of procs.now)) ≤ MOST_EVENTS }
    ensures { events.new.items ≡ events.old.items ++ ended_by ending 0 running.now (processes_of procs.now) }
{
    for (p, proc) in procs.iter().enumerate() {
        add(
            events,
            event_of(ending, p as u32, running[p], proc.status()),
        );
    }
}

// The event of a process that has ended so, if it ran.
fn event_of(ending: Ending, process: u32, ran: bool, status: ProcessStatus) -> Option<Event>
    ensures { option_to_list result ≡ ended_if ending process ran (status_of status) }
{
    if !ran {
        return None;
    }
    match (ending, status) {
        (Ending::Failed, ProcessStatus::Failed(cause)) => Some(Event::Error { process, cause }),
        (Ending::Done, ProcessStatus::Finished) => Some(Event::Done { process }),
        _ => None,
    }
}

// Adds an event, if there is one.
fn add(events: &mut ArrayVec<Event, MOST_EVENTS>, event: Option<Event>)
    requires { length events.old.items + length (option_to_list event) ≤ MOST_EVENTS }
    ensures { events.new.items ≡ events.old.items ++ option_to_list event }
{
    if let Some(event) = event {
        events.push(event);
    }
}

/// Notes who runs.
pub(crate) fn note_running<L: Ledger>(procs: &[Proc<L>], running: &mut [bool])
    requires { length running.old ≡ length procs.now }
    ensures { running.new ≡ running_of (processes_of procs.now) }
{
    for (p, proc) in procs.iter().enumerate() {
        running[p] = runs(proc.status());
    }
}

fn runs(status: ProcessStatus) -> bool
    ensures { result ≡ is_running (status_of status) }
{
    match status {
        ProcessStatus::Running => true,
        ProcessStatus::Finished | ProcessStatus::Failed(_) => false,
    }
}

/// Releases the held lines of each process that has no level.
#[inline(never)]
pub fn release_all<L: Ledger>(procs: &mut [Proc<L>], steps: &mut Steps<L>)
    requires waits { NoneWaits procs.old }
    ensures processes { (c : Plain) (groups : List Membership) → processes_of procs.new ≡ map (freed (word_kind c groups)) (processes_of procs.old) }
    ensures lines { (c : Plain) (groups : List Membership)
        → lines_of procs.new ≡ map (λ (q : Process Standing Copy). lines_freed (word_kind c groups) q.state q.levels) (processes_of procs.old) }
    ensures work { steps.new ≤ steps.old + 2 * releasing (lines_of procs.new) }
{
    for proc in procs.iter_mut() {
        proc.release_if_free(steps);
    }
}

/// Forgets the released lines of each process, and answers how many they were.
#[inline(never)]
pub fn drop_all_released<L: Ledger>(procs: &mut [Proc<L>]) -> u32
    requires few { length procs.old ≤ MOST_PROCESSES_SECOND }
    ensures count { result ≡ sum_by length (lines_of procs.old) }
    ensures few { result ≤ MOST_PROCESSES_SECOND * MOST_HELD_BYTES }
    ensures processes { processes_of procs.new ≡ processes_of procs.old }
    ensures none { lines_of procs.new ≡ replicate (length procs.old) [] }
{
    let mut count = 0;
    for proc in procs.iter_mut() {
        count += proc.drop_released();
    }
    count
}
