//! A run that prints nothing, and counts the lines that it would print.

ghost use Rattle.std.specs.Prelude.{◌≡◌, ◌+◌, ◌-◌, ◌*◌, ◌^◌, ◌<◌, ◌≤◌, false, true, [], ◌∷◌, length, replicate, sum_by};
ghost use Rattle.rb_base.specs.declared.event.TheConstants.{MOST_EVENTS};
ghost use Rattle.rb_base.specs.declared.limits.TheConstants.{MOST_HELD_BYTES, MOST_PROCESSES_SECOND};
ghost use Rattle.rb_code.specs.WordMachine.WordKind.{word_kind};
ghost use Rattle.rb_code.specs.WordMachine.WordRun.{opening_of, word_run};
ghost use Rattle.rb_world.specs.Turn.{run as run_from, told_at_opening};
ghost use Rattle.rb_machine.specs.Machine.{IsOver, opening_seen};
ghost use Rattle.rb_recovery.specs.Work.{turns_work};
ghost use Rattle.rb_run.specs.Counting.{AreBelow, IsMore, both_counted, counts, nothing_counted, told_counts};
ghost use Rattle.rb_run.specs.Running.{NoneWaits, ran};

use rb_base::{Event, Report, Steps};
use rb_machine::Machine;
use rb_sched::Schedule;
use std::sync::ledger::Ledger;

/// How many lines of each kind a run prints: released lines, rejections, passes of a test line, errors, and ends of processes.
#[derive(Clone, Copy)]
pub struct Counts {
    pub out: u64,
    pub reject: u64,
    pub pass: u64,
    pub error: u64,
    pub done: u64,
}

/// Runs a machine that was just loaded, and holds no links, over a schedule that was just read, and counts the lines of each kind that its
/// run would print before its `end` line. It takes no memory, and its ticks are at most those of its turns.
pub fn count<L: Ledger>(
    machine: &mut Machine<'_, L>,
    schedule: Schedule<'_>,
    steps: &mut Steps<L>,
) -> Counts
    requires fresh { machine.old ≡ opening_seen machine.old.code machine.old.groups false machine.old.most }
    requires whole { schedule.left ≡ schedule.all }
    requires turns { length schedule.left ≤ machine.old.most }
    ensures counts { counts result
        ≡ told_counts
        (told_at_opening (opening_of machine.old.code machine.old.groups)
        ∷ (word_run machine.old.code machine.old.groups schedule.entry.all).1) }
    ensures machine { machine.new ≡ ran machine.old schedule.entry.all }
    ensures work { steps.new ≤ steps.old + turns_work machine.old.code machine.old.groups 1 schedule.entry.all machine.old.world }
{
    let mut report = machine.opening();
    let mut tally = Counts::none();
    tally.add(&report.events, 0);
    count_turns(machine, schedule, &mut report, &mut tally, steps);
    tally
}

// Takes the turns of a schedule, and adds up their lines. Once every process rests the others are taken at once.
fn count_turns<L: Ledger>(
    machine: &mut Machine<'_, L>,
    mut schedule: Schedule<'_>,
    report: &mut Report,
    tally: &mut Counts,
    steps: &mut Steps<L>,
)
    requires waits { NoneWaits machine.old }
    requires turns { machine.old.taken + length schedule.left ≤ machine.old.most }
    requires end { machine.old.taken + length schedule.left ≡ length schedule.all }
    requires few { machine.old.most < 2 ^ 32 - 1 }
    requires room { AreBelow (2 ^ 32) tally.old }
    ensures counts { counts tally.new
        ≡ both_counted (counts tally.old)
        (told_counts
        (run_from (word_kind machine.old.code machine.old.groups) (machine.old.taken + 1) schedule.entry.left machine.old.world).1) }
    ensures machine { machine.new ≡ ran machine.old schedule.entry.left }
    ensures work { steps.new
        ≤ steps.old + turns_work machine.old.code machine.old.groups (machine.old.taken + 1) schedule.entry.left machine.old.world }
{
    'turns: while let Some(p) = schedule.next() {
        machine.turn(p, report, steps);
        if count_turn(machine, &report.events, tally) {
            machine.rest_until(schedule.turns());
            return;
        }
    }
}

// Adds up the lines of the turn that was taken last, which are forgotten. Most turns have none. True where no turn behind it has any.
fn count_turn<L: Ledger>(machine: &mut Machine<'_, L>, events: &[Event], tally: &mut Counts) -> bool
    requires processes { length machine.old.waiting ≡ length machine.old.world.processes }
    requires room { AreBelow (2 ^ 63) tally.old }
    requires few { length events.now ≤ MOST_EVENTS }
    ensures more { IsMore tally.old (sum_by length machine.old.waiting) events.now tally.new }
    ensures few { sum_by length machine.old.waiting ≤ MOST_PROCESSES_SECOND * MOST_HELD_BYTES }
    ensures machine { machine.new ≡ record machine.old { waiting = replicate (length machine.old.waiting) [] } }
    ensures over { result ≡ true → IsOver machine.new }
{
    if events.is_empty() && !machine.has_released() {
        return false;
    }
    tally.add(events, machine.drop_released());
    machine.is_over()
}

impl Counts {
    // Nothing was counted yet.
    fn none() -> Self
        ensures { counts result ≡ nothing_counted }
    {
        Counts {
            out: 0,
            reject: 0,
            pass: 0,
            error: 0,
            done: 0,
        }
    }

    // Adds the lines of one turn: its events, and so many released lines.
    fn add(&mut self, events: &[Event], released: u32)
        requires room { AreBelow (2 ^ 63) self.old }
        requires few { length events.now ≤ MOST_EVENTS }
        ensures { IsMore self.old released events.now self.new }
    {
        self.out += u64::from(released);
        for event in events {
            self.note(event);
        }
    }

    // Adds the line of an event.
    fn note(&mut self, event: &Event)
        requires { AreBelow (2 ^ 64 - 1) self.old }
        ensures { IsMore self.old 0 (event.now ∷ []) self.new }
    {
        match event {
            Event::Reject { .. } | Event::RejectAll { .. } => self.reject += 1,
            Event::Error { .. } => self.error += 1,
            Event::Pass { .. } => self.pass += 1,
            Event::Done { .. } => self.done += 1,
        }
    }
}
