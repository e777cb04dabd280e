//! The machine: a program's processes, channels and conversations, turn by turn.

ghost use Rattle.std.specs.Prelude.{◌≡◌, ◌+◌, ◌-◌, ◌*◌, ◌<◌, ◌≤◌, ◌^◌, ◌&&◌, true, false, [], length, map, replicate, slice_get, sum_by, IfOk, Some};
ghost use Rattle.rb_base.specs.declared.limits.TheConstants.{MOST_HELD_BYTES, MOST_PROCESSES_SECOND};
ghost use Rattle.rb_code.specs.Instructions.Plain.{code as plain};
ghost use Rattle.rb_code.specs.SoundCode.WellFormed.{IsSound};
ghost use Rattle.rb_code.specs.WordMachine.Turn.{Copy, Standing};
ghost use Rattle.rb_conv.specs.Conversations.{memberships, opening};
ghost use Rattle.rb_proc.specs.Process.{wanted_of};
ghost use Rattle.rb_trace.specs.Report.{told_of};
ghost use Rattle.rb_world.specs.Turn.{told_at_opening, turn};
ghost use Rattle.rb_world.specs.World.{Process};
ghost use Rattle.rb_machine.specs.AtWork.{IsAtWork};
ghost use Rattle.rb_recovery.specs.Cascade.{SameGroups};
ghost use Rattle.rb_recovery.specs.Known.{IsSoundFor};
ghost use Rattle.rb_recovery.specs.Links.{HasRoom};
ghost use Rattle.rb_machine.specs.Machine.{HasTurned, IsKeptEntry, IsOver, opening_seen};
ghost use Rattle.rb_machine.specs.Moves.{AreAtWork};
ghost use Rattle.rb_recovery.specs.Parts.{world};
ghost use Rattle.rb_recovery.specs.Reading.{line_stood_at};
ghost use Rattle.rb_machine.specs.Resting.{is_still, waits_or_rests};
ghost use Rattle.rb_recovery.specs.Survivors.{word_survivors};
ghost use Rattle.rb_machine.specs.Telling.{AreFreed, running_of};
ghost use Rattle.rb_recovery.specs.Work.{enters_there, turn_work};
ghost use Rattle.rb_recovery.specs.Worlds.{NoneWaits, counts_of, kind_with, lines_of, processes_of};

mod looking;

use crate::ends::end_turn;
use crate::loading::load_parts;
use crate::moves::{Move, take_turn};
use crate::reading::{line_at, place_at, sent_on, state_at, taken_on, want_at, word_at};
use crate::rests::{Resting, is_bare, is_still};
use crate::telling::{drop_all_released, tell_opening};
use arrayvec::ArrayVec;
use rb_base::{Final, Kept, Lines, Memory, Nested, Report, State, Steps, TurnKind};
use rb_code::Code;
use rb_proc::Wanted;
use rb_recovery::links::Links;
use rb_recovery::parts::Parts;
use rb_recovery::survivors::survivors;
use std::alloc::Global;
use std::marker::Model;
use std::sync::ledger::Ledger;

/// A program under way. Contracts see the word machine's world, in which each open level has a whole copy of its process; the machine
/// copies nothing. Only the two loads and `survivors` take memory.
pub struct Machine<'a, L: Ledger> {
    parts: Parts<L>,
    code: &'a Code,
    running: Vec<bool>,
    taken: u32,
    most: u32,
    released: bool,
    resting: Resting,
}

impl<L: Ledger> Drop for Machine<'_, L> {
    fn drop(self) {
        let Machine {
            parts: _,
            code: _,
            running: _,
            taken: _,
            most: _,
            released: _,
            resting: _,
        } = self;
    }
}

impl<'a, L: Ledger> Model for Machine<'a, L> {
    ghost use Rattle.rb_code.specs.Instructions.Plain.{code as plain};
    ghost use Rattle.rb_machine.specs.Machine.{Seen, seen, IsTied};

    ghost Value = { Seen };

    ghost view = { λ m. seen (plain m.code.now) m.parts m.taken m.most };

    ghost invariant = { λ m. IsTied (plain m.code.now) m.parts m.running.items m.taken m.most m.released m.resting };
}

impl<'a, L: Ledger> Machine<'a, L> {
    /// A program before its first turn, for so many turns; `Memory` if it is wanting, or if the code has more instructions, or a block more
    /// alternates, than 32 bits number. It holds no links, so `survivors` has no answer but `Memory`; no other call takes memory.
    pub fn load(
        alloc: Global,
        code: &'a Code,
        nested: &Nested,
        turns: u32,
        steps: &mut Steps<L>,
    ) -> Result<Self, Memory>
        requires sound { IsSound (plain code.now) (memberships (opening nested.now)) (counts_of (opening nested.now)) }
        requires turns { turns < 2 ^ 32 - 1 }
        ensures { IfOk result (λ machine. machine ≡ opening_seen (plain code.now) (memberships (opening nested.now)) false turns) }
    {
        let links = Links::unheld(alloc);
        Machine::start(alloc, code, nested, turns, links, steps)
    }

    /// The same of a machine whose survivors may be asked for: it holds the links of the turns that are kept, and takes memory here for those
    /// of so many turns. No call but `survivors` takes more.
    pub fn load_for_survivors(
        alloc: Global,
        code: &'a Code,
        nested: &Nested,
        turns: u32,
        steps: &mut Steps<L>,
    ) -> Result<Self, Memory>
        requires sound { IsSound (plain code.now) (memberships (opening nested.now)) (counts_of (opening nested.now)) }
        requires turns { turns < 2 ^ 32 - 1 }
        ensures { IfOk result (λ machine. machine ≡ opening_seen (plain code.now) (memberships (opening nested.now)) true turns) }
    {
        let links = Links::held(alloc, turns)?;
        Machine::start(alloc, code, nested, turns, links, steps)
    }

    // A program before its first turn, with these links, of which there is none yet.
    fn start(
        alloc: Global,
        code: &'a Code,
        nested: &Nested,
        turns: u32,
        links: Links,
        steps: &mut Steps<L>,
    ) -> Result<Self, Memory>
        requires sound { IsSound (plain code.now) (memberships (opening nested.now)) (counts_of (opening nested.now)) }
        requires turns { turns < 2 ^ 32 - 1 }
        requires none { links.items ≡ [] }
        requires room { turns ≤ links.room }
        ensures { IfOk result (λ machine. machine ≡ opening_seen (plain code.now) (memberships (opening nested.now)) links.held turns) }
    {
        let loaded = load_parts(alloc, code, nested, turns, links, steps)?;
        Ok(Machine {
            parts: loaded.parts,
            code,
            running: loaded.running,
            taken: 0,
            most: turns,
            released: false,
            resting: loaded.resting,
        })
    }

    /// What is told before the first turn: who is done. Contracts learn here that the machine's code is sound and its turns are few, as it
    /// is of every machine.
    pub fn opening(&self) -> Report
        requires { self.now.taken ≡ 0 }
        ensures told { told_of result.kind result.events.items [] ≡ told_at_opening self.now.world }
        ensures sound { IsSoundFor self.now.code self.now.groups }
        ensures few { self.now.most < 2 ^ 32 - 1 }
    {
        let mut events = ArrayVec::new();
        tell_opening(&self.parts.procs, &mut events);
        Report {
            kind: TurnKind::Took,
            events,
        }
    }

    /// One turn of process p, as the word machine takes it: the report becomes what it came to, whatever it held before, and the lines that
    /// it released wait. One report serves all turns of a run, since a new one is large. It costs the ticks of `turn_work` at most, and none
    /// where the turn is an entry that is kept. Contracts learn here that before a turn who has no level holds no line.
    pub fn turn(&mut self, p: u32, report: &mut Report, steps: &mut Steps<L>)
        requires more { self.old.taken < self.old.most }
        requires waits { self.old.waiting ≡ replicate (length self.old.world.processes) [] }
        ensures turned { HasTurned self.old p self.new (told_of report.new.kind report.new.events.items self.new.waiting) }
        ensures work { steps.new ≤ steps.old + turn_work self.old.code self.old.groups (self.old.taken + 1) p self.old.world }
        ensures entry { IsKeptEntry self.old p → steps.new ≤ steps.old }
        ensures freed { AreFreed self.old.world.processes }
    {
        match self.resting.kind(p) {
            Some(kind) => {
                report.events.clear();
                report.kind = kind;
                self.taken += 1;
                self.released = false;
            }
            None => self.take(p, report, steps),
        }
    }

    // A turn of process p, which isn't known to rest.
    #[inline(never)]
    fn take(&mut self, p: u32, report: &mut Report, steps: &mut Steps<L>)
        requires more { self.old.taken < self.old.most }
        requires waits { self.old.waiting ≡ replicate (length self.old.world.processes) [] }
        ensures turned { HasTurned self.old p self.new (told_of report.new.kind report.new.events.items self.new.waiting) }
        ensures work { steps.new ≤ steps.old + turn_work self.old.code self.old.groups (self.old.taken + 1) p self.old.world }
        ensures entry { IsKeptEntry self.old p → steps.new ≤ steps.old }
    {
        self.taken += 1;
        let left = turn(
            self.code,
            &mut self.parts,
            &mut self.running,
            self.taken,
            p,
            report,
            steps,
        );
        let released = left.released;
        let quiet = leaves_still(left.rests, report.kind);
        let still = quiet && is_bare(&self.parts.procs, p);
        if still {
            self.resting.note(p, self.taken, report.kind);
            self.released = released || self.resting.is_all();
        } else {
            self.resting.forget(self.taken);
            self.released = released;
        }
    }

    /// Forgets the released lines that wait, and answers how many they were.
    pub fn drop_released(&mut self) -> u32
        ensures count { result ≡ sum_by length self.old.waiting }
        ensures few { result ≤ MOST_PROCESSES_SECOND * MOST_HELD_BYTES }
        ensures machine { self.new ≡ record self.old { waiting = replicate (length self.old.waiting) [] } }
    {
        if !self.released {
            return 0;
        }
        self.released = false;
        drop_all_released(&mut self.parts.procs)
    }

    /// The turns that survived so far, in the order of their numbers. It takes memory for their list, and for one number a process: `Memory` if
    /// it is wanting, or if the machine was loaded without room for links.
    pub fn survivors(&self, alloc: Global) -> Result<Vec<Kept>, Memory>
        ensures { IfOk result (λ kept. kept.items ≡ word_survivors self.now.world) }
    {
        survivors(alloc, &self.parts)
    }

    /// False where no released line waits.
    pub fn has_released(&self) -> bool
        ensures { result ≡ false → self.now.waiting ≡ replicate (length self.now.world.processes) [] }
    {
        self.released
    }

    /// Whether every process is known to rest, so that no turn changes, tells or releases anything any more. It is asked where `has_released`
    /// is true: that is so of the turn by which the last process is known to rest, too.
    pub fn is_over(&self) -> bool
        ensures { result ≡ true → IsOver self.now }
    {
        self.resting.is_all()
    }

    /// Takes all turns up to this number at once, of a machine that is over: nothing changes but their number.
    pub fn rest_until(&mut self, turns: u32)
        requires over { IsOver self.old }
        requires later { self.old.taken ≤ turns }
        requires most { turns ≤ self.old.most }
        ensures { self.new ≡ record self.old { taken = turns } }
    {
        self.taken = turns;
    }

    /// What process p wants of its next turn.
    pub fn want(&self, p: u32) -> Wanted
        requires { p < length self.now.world.processes }
        ensures { (q : Process Standing Copy) → slice_get self.now.world.processes p ≡ Some q → result ≡ wanted_of self.now.code q }
    {
        want_at(self.code, &self.parts.procs, p)
    }

    /// The conversation at whose test line process p stands; `None` where it stands at none.
    pub fn line(&self, p: u32) -> Option<u32>
        requires { p < length self.now.world.processes }
        ensures { (q : Process Standing Copy) → slice_get self.now.world.processes p ≡ Some q → result ≡ line_stood_at q }
    {
        line_at(&self.parts.procs, p)
    }

    /// The address in code at which process p stands.
    pub fn place(&self, p: u32) -> u32
        requires { p < length self.now.world.processes }
        ensures { (q : Process Standing Copy) → slice_get self.now.world.processes p ≡ Some q → result ≡ q.state.at }
    {
        place_at(&self.parts.procs, p)
    }

    /// How many turns it has taken.
    pub fn turns_taken(&self) -> u32
        ensures { result ≡ self.now.taken }
    {
        self.taken
    }
}

// The released lines of each process, which wait until they are written.
impl<'a, L: Ledger> Lines for Machine<'a, L> {
    ghost use Rattle.std.specs.Prelude.{[]};
    ghost use Rattle.rb_machine.specs.Machine.{Seen};

    ghost waiting = { λ m. m.waiting };

    ghost Rest = { Seen };

    ghost rest = { λ m. record m { waiting = [] } };

    fn released(&mut self, p: u32) -> Option<&[u8]> {
        self.parts.released(p)
    }
}

// How the processes and the channels stand, for the ending of a run.
impl<'a, L: Ledger> Final for Machine<'a, L> {
    ghost use Rattle.rb_recovery.specs.Reading.{sent_of, states_of, taken_of, variables_of};

    type Ledger = L;

    ghost states = { λ m. states_of m.world.processes };

    ghost words = { λ m. variables_of m.code m.world.processes };

    ghost sent = { λ m. sent_of m.code m.world.processes };

    ghost taken = { λ m. taken_of m.code m.world.processes };

    fn state(&self, p: u32) -> State {
        state_at(&self.parts.procs, p)
    }

    fn word(&self, p: u32, at: u32, steps: &mut Steps<L>) -> i64 {
        word_at(self.code, &self.parts.procs, p, at, steps)
    }

    fn sent(&self, channel: u32, steps: &mut Steps<L>) -> i64 {
        sent_on(self.code, &self.parts.procs, channel, steps)
    }

    fn taken(&self, channel: u32, steps: &mut Steps<L>) -> i64 {
        taken_on(self.code, &self.parts.procs, channel, steps)
    }
}

// How a turn has left the machine: whether released lines wait, and whether its process may rest, since it waited or was done.
#[derive(Clone, Copy)]
struct Left {
    released: bool,
    rests: bool,
}

// Turn number `number` of process p, into the report.
#[inline(always)]
fn turn<L: Ledger>(
    code: &Code,
    parts: &mut Parts<L>,
    running: &mut Vec<bool>,
    number: u32,
    p: u32,
    report: &mut Report,
    steps: &mut Steps<L>,
) -> Left
    requires work { AreAtWork (plain code.now) number parts.old }
    requires running { running.old.items ≡ running_of (processes_of parts.old.procs.items) }
    requires room { HasRoom parts.old.links }
    requires few { number < 2 ^ 32 - 1 }
    requires freed { AreFreed (processes_of parts.old.procs.items) }
    ensures turned { (world parts.new, told_of report.new.kind report.new.events.items (lines_of parts.new.procs.items))
        ≡ turn (kind_with (plain code.now) parts.old.table) number p (world parts.old) }
    ensures groups { SameGroups parts.old.table parts.new.table }
    ensures at_work { IsAtWork (plain code.now) (number + 1) parts.new.procs.items parts.new.table parts.new.mails parts.new.links.items }
    ensures running { running.new.items ≡ running_of (processes_of parts.new.procs.items) }
    ensures freed { AreFreed (processes_of parts.new.procs.items) }
    ensures none_waits { result.released ≡ false → NoneWaits parts.new.procs.items }
    ensures room { parts.old.links.room ≤ parts.new.links.room + 1 }
    ensures held { parts.new.links.held ≡ parts.old.links.held }
    ensures work { steps.new ≤ steps.old + turn_work (plain code.now) (memberships parts.old.table) number p (world parts.old) }
    ensures entry { enters_there (plain code.now) report.new.kind (slice_get (processes_of parts.old.procs.items) p) ≡ true → steps.new ≤ steps.old }
{
    report.events.clear();
    let moved = take_turn(code, parts, number, p, steps);
    let released = end_turn(code, parts, running, number, p, moved, report, steps);
    let rests = may_rest(moved);
    Left { released, rests }
}

// Whether a process that did this may rest from now on: it waits, or is done.
#[inline(always)]
fn may_rest(moved: Move) -> bool
    ensures { result ≡ waits_or_rests moved }
{
    matches!(moved, Move::Waits | Move::Rests)
}

// Whether a turn whose process may rest changed nothing.
#[inline(always)]
fn leaves_still(rests: bool, kind: TurnKind) -> bool
    ensures { result ≡ (rests && is_still kind) }
{
    rests && is_still(kind)
}
