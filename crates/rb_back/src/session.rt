//! A session: a run that is stepped forth turn by turn, and back by undo.

ghost use Rattle.std.specs.Prelude.{◌≡◌, ◌+◌, ◌-◌, ◌<◌, ◌≤◌, ◌^◌, ℕ, [], ◌∷◌, ◌++◌, Some, length, slice_get, slice_range, vec_len, vec_capacity, IfOk, OnErr, OnOk};
ghost use Rattle.rb_base.specs.declared.event.TurnKind.TheVariants.{Undone};
ghost use Rattle.rb_code.specs.Instructions.Plain.{code as plain};
ghost use Rattle.rb_code.specs.SoundCode.WellFormed.{IsSound};
ghost use Rattle.rb_code.specs.WordMachine.Turn.{Copy, Standing};
ghost use Rattle.rb_conv.specs.Conversations.{memberships, opening};
ghost use Rattle.rb_recovery.specs.Known.{IsSoundFor};
ghost use Rattle.rb_recovery.specs.Worlds.{counts_of};
ghost use Rattle.rb_back.specs.Course.{MayStep, changed_words, opening_course, stepped, went_back};
ghost use Rattle.rb_back.specs.Journal.{words_of};
ghost use Rattle.rb_back.specs.Others.{all_keep_others, keeps_others};
ghost use Rattle.rb_back.specs.Stores.{AreAllIn, IsIn};
ghost use Rattle.rb_world.specs.World.{Process};

use crate::loading::load_view;
use crate::noting::note_turn;
use crate::stores::{EVERYTHING, Stores, store_ranges, stores_at};
use crate::view::{Change, View, redo_all, undo_all};
use arrayvec::ArrayVec;
use rb_base::{Event, Final, Memory, Nested, Report, State, Steps, TurnKind};
use rb_code::Code;
use rb_machine::Machine;
use std::alloc::Global;
use std::marker::Model;
use std::sync::ledger::Ledger;

/// How many changes there is room for at first, beside those of one turn.
const FIRST_CHANGES: usize = 1_024;

/// A turn that was taken: its process, and where its changes begin and end.
#[derive(Clone, Copy)]
pub(crate) struct Turn {
    pub process: u32,
    pub from: usize,
    pub to: usize,
}

/// A run that can be stepped forth and back. Contracts see the turns that were taken so far and the position among them; what is shown is
/// the run over the turns up to there. The machine stands behind the last of them.
pub struct Session<'a, L: Ledger> {
    machine: Machine<'a, L>,
    report: Report,
    view: View<L>,
    turns: Vec<Turn>,
    changes: Vec<Change>,
    most_changed: usize,
    ranges: Vec<Stores>,
    position: u32,
}

impl<L: Ledger> Drop for Session<'_, L> {
    fn drop(self) {
        let Session {
            machine: _,
            report: _,
            view: _,
            turns: _,
            changes: _,
            most_changed: _,
            ranges: _,
            position: _,
        } = self;
    }
}

impl<'a, L: Ledger> Model for Session<'a, L> {
    ghost use Rattle.std.specs.Prelude.{vec_capacity};
    ghost use Rattle.rb_back.specs.Course.{Course};
    ghost use Rattle.rb_back.specs.Journal.{IsKept, course_of};
    ghost use Rattle.rb_back.specs.Picture.{picture};
    ghost use Rattle.rb_back.specs.Stores.{AreRanges};

    ghost Value = { Course };

    ghost view = { λ s. course_of s.machine s.turns.items s.position };

    ghost invariant = { λ s. IsKept s.machine (picture s.view) s.turns.items (vec_capacity s.turns) s.changes.items s.most_changed s.position
        × AreRanges s.machine.code s.ranges.items };
}

impl<'a, L: Ledger> Session<'a, L> {
    /// A program before its first turn, with room for so many turns; `Memory` if it is wanting.
    pub fn load(
        alloc: Global,
        code: &'a Code,
        nested: &Nested,
        turns: u32,
        steps: &mut Steps<L>,
    ) -> Result<Self, Memory>
        requires sound { IsSound (plain code.now) (memberships (opening nested.now)) (counts_of (opening nested.now)) }
        requires turns { turns < 2 ^ 32 - 1 }
        ensures { IfOk result (λ session. session ≡ opening_course (plain code.now) (memberships (opening nested.now)) turns) }
    {
        let ranges = store_ranges(alloc, code)?;
        let most_changed = most_changes(code);
        let mut changes = Vec::new(alloc);
        changes.try_reserve(most_changed + FIRST_CHANGES)?;
        let taken = Vec::with_capacity(alloc, turns as usize)?;
        let machine = Machine::load(alloc, code, nested, turns, steps)?;
        let view = load_view(alloc, code, &machine, steps)?;
        Ok(Session {
            machine,
            report: Report {
                kind: TurnKind::Idle,
                events: ArrayVec::new(),
            },
            view,
            turns: taken,
            changes,
            most_changed,
            ranges,
            position: 0,
        })
    }

    /// One turn forth. Up to the farthest turn it puts new values back; only behind that the machine takes a turn of process p, which may want
    /// memory. Where memory is wanting nothing has happened.
    pub fn step(&mut self, p: u32, steps: &mut Steps<L>) -> Result<(), Memory>
        requires { MayStep self.old p }
        ensures stepped { OnOk result (self.new ≡ stepped self.old p) }
        ensures as_before { OnErr result ((self.new ≡ self.old) × (length self.old.ran ≤ self.old.position)) }
        ensures work { OnOk result (self.old.position < length self.old.ran → steps.new ≤ steps.old + changed_words self.old self.old.position) }
    {
        match self.turns.get(self.position as usize) {
            Some(turn) => {
                redo_all(&mut self.view, noted(&self.changes, turn), steps);
                self.position += 1;
                Ok(())
            }
            None => self.take_turn(p, steps),
        }
    }

    // A turn of the machine, noted behind all others.
    fn take_turn(&mut self, p: u32, steps: &mut Steps<L>) -> Result<(), Memory>
        requires farthest { self.old.position ≡ length self.old.ran }
        requires more { self.old.position < self.old.turns }
        ensures taken { OnOk result (self.new ≡ record self.old { ran = self.old.ran ++ p ∷ []; position = self.old.position + 1 }) }
        ensures as_before { OnErr result (self.new ≡ self.old) }
    {
        self.changes.try_reserve(self.most_changed)?;
        let own = stores_of(&self.machine, &self.ranges, self.view.words.len(), p);
        self.machine.turn(p, &mut self.report, steps);
        self.machine.drop_released();
        let from = self.changes.len();
        let alone = keep_others(&self.report.events);
        let stores = compared(self.report.kind, own);
        note_turn(
            &mut self.view,
            &self.machine,
            p,
            alone,
            stores,
            &mut self.changes,
            steps,
        );
        let to = self.changes.len();
        add(
            &mut self.turns,
            Turn {
                process: p,
                from,
                to,
            },
        );
        self.position += 1;
        Ok(())
    }

    /// One turn back, by undo. It takes no memory, and at most one tick for each word that the turn changed.
    pub fn back(&mut self, steps: &mut Steps<L>)
        requires { 0 < self.old.position }
        ensures back { self.new ≡ went_back self.old }
        ensures work { steps.new ≤ steps.old + changed_words self.old (self.old.position - 1) }
    {
        self.position -= 1;
        let turn = &self.turns[self.position as usize];
        undo_all(&mut self.view, noted(&self.changes, turn), steps);
    }

    /// The process of the turn behind the position; `None` exactly where none was taken behind it.
    pub fn next_process(&self) -> Option<u32>
        ensures { result ≡ slice_get self.now.ran self.now.position }
    {
        self.turns
            .get(self.position as usize)
            .map(|turn| turn.process)
    }

    /// How many turns forth it stands. Contracts learn here that the code is sound, and that so many turns were taken.
    pub fn position(&self) -> u32
        ensures position { result ≡ self.now.position }
        ensures taken { self.now.position ≤ length self.now.ran }
        ensures sound { IsSoundFor self.now.code self.now.groups }
    {
        self.position
    }
}

// How a session stands at its position; what was sent and taken is that of its last turn.
impl<'a, L: Ledger> Final for Session<'a, L> {
    ghost use Rattle.rb_recovery.specs.Reading.{sent_of, taken_of};
    ghost use Rattle.rb_back.specs.Course.{farthest_world, shown_states, shown_variables};

    type Ledger = L;

    ghost states = { shown_states };

    ghost words = { shown_variables };

    ghost sent = { λ s. sent_of s.code (farthest_world s).processes };

    ghost taken = { λ s. taken_of s.code (farthest_world s).processes };

    fn state(&self, p: u32) -> State {
        self.view.states[p as usize]
    }

    fn word(&self, p: u32, at: u32, steps: &mut Steps<L>) -> i64 {
        self.view.words[p as usize].read(at, steps)
    }

    fn sent(&self, channel: u32, steps: &mut Steps<L>) -> i64 {
        self.machine.sent(channel, steps)
    }

    fn taken(&self, channel: u32, steps: &mut Steps<L>) -> i64 {
        self.machine.taken(channel, steps)
    }
}

// What a turn changed.
fn noted<'c>(changes: &'c [Change], turn: &Turn) -> &'c [Change]
    requires ordered { turn.now.from ≤ turn.now.to }
    requires within { turn.now.to ≤ length changes.now }
    ensures { result.now ≡ slice_range changes.now turn.now.from turn.now.to }
{
    &changes[turn.from..turn.to]
}

// Where a turn of process p, one of so many, may store if it takes nothing back.
fn stores_of<L: Ledger>(
    machine: &Machine<'_, L>,
    ranges: &[Stores],
    processes: usize,
    p: u32,
) -> Stores
    requires { processes ≤ length machine.now.world.processes }
    ensures { p < processes → (q : Process Standing Copy) → slice_get machine.now.world.processes p ≡ Some q
        → AreAllIn (slice_get ranges.now q.state.at) result }
{
    if (p as usize) < processes {
        stores_at(ranges, machine.place(p) as usize)
    } else {
        EVERYTHING
    }
}

// Which words of its process are compared behind a turn of a kind.
fn compared(kind: TurnKind, own: Stores) -> Stores
    ensures { (k : ℕ) → k < 2 ^ 32 - 1 → (IsIn k result → ⊥) → (kind ≡ Undone → ⊥) × (IsIn k own → ⊥) }
{
    match kind {
        TurnKind::Undone => EVERYTHING,
        TurnKind::Idle | TurnKind::Wait | TurnKind::Took => own,
    }
}

// Whether a turn with these events left all other processes as they were: no test line was passed, and no conversation was rejected.
fn keep_others(events: &[Event]) -> bool
    ensures { result ≡ all_keep_others events.now }
{
    events.iter().all(|event| keeps_others(event))
}

fn keeps_others(event: &Event) -> bool
    ensures { result ≡ keeps_others event.now }
{
    match event {
        Event::Pass { .. } | Event::RejectAll { .. } => false,
        Event::Reject { .. } | Event::Error { .. } | Event::Done { .. } => true,
    }
}

// Adds a turn, for which there is room.
fn add(turns: &mut Vec<Turn>, turn: Turn)
    requires { vec_len turns.old < vec_capacity turns.old }
    ensures items { turns.new.items ≡ turns.old.items ++ turn ∷ [] }
    ensures room { vec_capacity turns.old ≤ vec_capacity turns.new }
{
    turns.push(turn).unwrap();
}

// How many changes a turn can make: one of each process and one of each word.
fn most_changes(code: &Code) -> usize
    requires { length (plain code.now).processes + words_of (plain code.now) < 2 ^ 32 }
    ensures { result ≡ length (plain code.now).processes + words_of (plain code.now) }
{
    let mut words = 0;
    for process in &code.processes {
        words += process.words as usize;
    }
    code.processes.len() + words
}
