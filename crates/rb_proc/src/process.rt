//! One process: what it wants, its steps, its levels and its lines.

ghost use Rattle.std.specs.Prelude.{◌≡◌, ◌+◌, ◌-◌, ◌*◌, ◌<◌, ◌≤◌, ◌^◌, false, List, [], length, position, slice_get, Some, IfOk};
ghost use Rattle.rb_base.specs.declared.limits.TheConstants.{MOST_OPEN_LEVELS};
ghost use Rattle.rb_world.specs.Kind.{Membership};
ghost use Rattle.rb_world.specs.Reject.{fallen, put_back as put_back_at, raised};
ghost use Rattle.rb_world.specs.Standing.{Each};
ghost use Rattle.rb_world.specs.Turn.{is_over, stands_at, stands_now, turn_used};
ghost use Rattle.rb_world.specs.World.{Running, is_of, settled, without_last};
ghost use Rattle.rb_cache.specs.Copies.{accepted};
ghost use Rattle.rb_code.specs.Instructions.Plain.{Code as Plain, code as plain};
ghost use Rattle.rb_code.specs.SoundCode.Stands.{Serves, SettlesSoundly, StandsSoundly};
ghost use Rattle.rb_code.specs.WordMachine.Turn.{want as wanted_in};
ghost use Rattle.rb_trace.specs.Ended.{state_of};
ghost use Rattle.rb_code.specs.WordMachine.Workspace.{part_of};
ghost use Rattle.rb_code.specs.WordMachine.WordRun.{opening_standing};
ghost use Rattle.rb_recoverable.specs.Contents.{IsBelowLast};
ghost use Rattle.rb_proc.specs.Entries.{EntersAs, WantsBlock};
ghost use Rattle.rb_proc.specs.Executable.{HasNext, IsExecutable, RestartsAt};
ghost use Rattle.rb_operands.specs.Outcomes.{stop_at};
ghost use Rattle.rb_proc.specs.Runs.{CursorsRise};
ghost use Rattle.rb_proc.specs.Sees.{AreSized};
ghost use Rattle.rb_proc.specs.Statuses.{status_of};
ghost use Rattle.rb_recoverable.specs.Views.{IsViewOf};
ghost use Rattle.rb_proc.specs.Process.{Seen, StepsTo, alternate_for, kind_of, step_of, wanted_by, wanted_of};
ghost use Rattle.rb_proc.specs.Work.{named_in_step, named_settling};
ghost use Rattle.rb_recoverable.specs.Touched.{places_touched};

mod lines;
mod looking;
mod words;

use crate::answers::{Outcome, ProcessStatus, Wanted};
use crate::run::run;
use crate::sight::Sight;
use crate::wants::{facts_of, landing, status_by, status_here, want_at, want_next};
use rb_base::{Cause, MOST_OPERANDS, Memory, State, Steps};
use rb_code::Code;
use rb_mail::Mails;
use rb_operands::operands::Operands;
use rb_operands::{Bench, Ended};
use rb_recoverable::level_view::LevelView;
use rb_recoverable::recoverable::Recoverable;
use std::alloc::Global;
use std::marker::Model;
use std::sync::ledger::Ledger;

/// A process of the machine. Contracts see the process of the word machine, with its whole copies.
pub struct Proc<L: Ledger> {
    alloc: Global,
    memory: Recoverable<L>,
    values: Box<[i64; MOST_OPERANDS]>,
    bench: Bench,
    process: u32,
    at: u32,
    last_kept: u32,
    at_line: bool,
    status: ProcessStatus,
}

impl<L: Ledger> Drop for Proc<L> {
    fn drop(self) {
        let Proc {
            alloc: _,
            memory: _,
            values: _,
            bench: _,
            process: _,
            at: _,
            last_kept: _,
            at_line: _,
            status: _,
        } = self;
    }
}

impl<L: Ledger> Model for Proc<L> {
    ghost use Rattle.rb_proc.specs.Process.{Seen};

    ghost Value = { Seen };

    ghost use Rattle.rb_proc.specs.ProcessInside.{seen};

    ghost view = { λ p. seen p.memory p.process p.at p.last_kept p.at_line p.status };
}

impl<L: Ledger> Proc<L> {
    /// Process number p of a code, at its body, once it has settled; `Memory` if it is wanting. No other call takes memory.
    pub fn new(
        alloc: Global,
        code: &Code,
        process: u32,
        steps: &mut Steps<L>,
    ) -> Result<Self, Memory>
        requires code { IsExecutable (plain code.now) }
        requires process { process < length (plain code.now).processes }
        requires settles { (groups : List Membership)
            × SettlesSoundly (plain code.now) groups (opening_standing process (part_of (plain code.now) process)) [] }
        ensures { IfOk result
            (λ p. p ≡ record {
              process =
                  settled (kind_of (plain code.now)) (opening_standing process (part_of (plain code.now) process)) [];
              waiting =
                  [];
            }) }
    {
        let sight = Sight::new(code, process, None, Wanted::Step);
        let memory = Recoverable::new(alloc, sight.body(code), steps)?;
        let values = Box::new(alloc, [0; MOST_OPERANDS])?;
        let bench = Bench::new(alloc)?;
        let mut proc = Proc {
            alloc,
            memory,
            values,
            bench,
            process,
            at: start_of(code, process),
            last_kept: 0,
            at_line: false,
            status: ProcessStatus::Running,
        };
        proc.settle(code, steps);
        Ok(proc)
    }

    /// What the process wants of its next turn.
    #[inline(always)]
    pub fn want(&self, code: &Code) -> Wanted
        requires { IsExecutable (plain code.now) }
        ensures { result ≡ wanted_of (plain code.now) self.now.process }
    {
        match self.status {
            ProcessStatus::Running if self.at_line => Wanted::Line,
            ProcessStatus::Running => want_at(code, self.at),
            ProcessStatus::Finished | ProcessStatus::Failed(_) => Wanted::Idle,
        }
    }

    /// The same of a process that runs, stands at no test line, and rests where another instruction follows unless it is done.
    #[inline(always)]
    pub fn want_next(&self, code: &Code) -> Wanted
        requires { HasNext (plain code.now) self.now.process.state.at }
        ensures { result ≡ wanted_by (wanted_in (plain code.now) self.now.process.state) }
    {
        want_next(code, self.at)
    }

    /// How the process stands; a running one with its number of open levels.
    pub fn state(&self) -> State
        ensures { result ≡ state_of (self.now.process.status, length self.now.process.levels) }
    {
        match self.status {
            ProcessStatus::Running => State::Running(self.memory.levels()),
            ProcessStatus::Finished => State::Done,
            ProcessStatus::Failed(_) => State::Failed,
        }
    }

    /// How many levels are open.
    pub fn levels(&self) -> u32
        ensures { result ≡ length self.now.process.levels }
    {
        self.memory.levels()
    }

    /// An open level; levels count from 0, the outermost.
    pub fn level(&self, k: u32) -> LevelView
        requires { k < length self.now.process.levels }
        ensures { IsViewOf (slice_get self.now.process.levels k) result }
    {
        self.memory.level(k)
    }

    /// The first level of a conversation, from the outside in.
    pub fn place_in(&self, conversation: u32) -> Option<u32>
        ensures { result ≡ position (is_of conversation) self.now.process.levels }
    {
        self.memory.place_in(conversation)
    }

    /// Whether it stands at the test line of a conversation.
    pub fn stands_at(&self, conversation: u32) -> bool
        ensures { result ≡ stands_at conversation self.now.process }
    {
        self.at_line && self.memory.is_last_of(conversation)
    }

    /// The address at which it stands: of the `turn` that its next turn begins at, or of `done`.
    pub fn place(&self) -> u32
        ensures { result ≡ self.now.process.state.at }
    {
        self.at
    }

    /// The last turn that was kept.
    pub fn last_kept(&self) -> u32
        ensures { result ≡ self.now.process.state.last_kept }
    {
        self.last_kept
    }

    /// Whether it stands at the test line of its innermost level.
    pub fn at_line(&self) -> bool
        ensures { result ≡ self.now.process.at_line }
    {
        self.at_line
    }

    /// One turn: all from the `turn` at which the process stands up to the next one. It is known what the process wants, and it is given the
    /// message that is there, if one is. At most three ticks for each word that its instructions name.
    pub fn step(
        &mut self,
        code: &Code,
        mails: &mut Mails,
        wanted: Wanted,
        message: Option<i64>,
        steps: &mut Steps<L>,
    ) -> Outcome
        requires code { IsExecutable (plain code.now) }
        requires running { self.old.process.status ≡ Running }
        requires away { self.old.process.at_line ≡ false }
        requires none_waits { self.old.waiting ≡ [] }
        requires wanted { wanted ≡ wanted_by (wanted_in (plain code.now) self.old.process.state) }
        requires stands { (groups : List Membership) × StandsSoundly (plain code.now) groups self.old.process.state self.old.process.levels }
        requires serves { Serves (wanted_in (plain code.now) self.old.process.state)
            (alternate_for (wanted_in (plain code.now) self.old.process.state) self.old.process.levels)
            message self.old.process.levels }
        requires sized { AreSized (plain code.now) mails.old }
        requires cursors { CursorsRise (plain code.now) self.old.process.state.process self.old.process.state.words }
        ensures came { StepsTo (plain code.now) self.old.process mails.old
            (step_of (plain code.now) self.old.process mails.old message) result self.new.process mails.new }
        ensures sized { AreSized (plain code.now) mails.new }
        ensures waiting { self.new.waiting ≡ self.old.waiting }
        ensures work { steps.new ≤ steps.old + 3 * named_in_step (plain code.now) self.old.process mails.old message }
    {
        let sight = Sight::new(code, self.process, message, wanted);
        let mut operands = Operands::none(&mut *self.values);
        self.bench.clear();
        match run(
            code,
            &sight,
            self.at + 1,
            &mut operands,
            &mut self.bench,
            &mut self.memory,
            mails,
            steps,
        ) {
            Ended::Stop(at, done) => {
                self.at = at;
                self.status = status_by(done);
                Outcome::Went
            }
            Ended::Accepts(at) => {
                self.at = at;
                Outcome::Accepts
            }
            Ended::Trap(cause) => Outcome::Trap(cause),
        }
    }

    /// The innermost level goes, and what stands before the next `turn` is carried out. At most three ticks for each word that is named there.
    #[inline(always)]
    pub fn accept(&mut self, code: &Code, steps: &mut Steps<L>)
        requires code { IsExecutable (plain code.now) }
        requires none_waits { self.old.waiting ≡ [] }
        requires open { 0 < length self.old.process.levels }
        requires settles { (groups : List Membership)
            × SettlesSoundly (plain code.now) groups
            (record self.old.process.state { touched = accepted self.old.process.state.touched })
            (without_last self.old.process.levels) }
        ensures settled { self.new
            ≡ record self.old {
              process =
                  settled (kind_of (plain code.now))
                  (record self.old.process.state { touched = accepted self.old.process.state.touched })
                  (without_last self.old.process.levels);
            } }
        ensures work { steps.new
            ≤ steps.old + 3 * named_settling (plain code.now)
            (record self.old.process.state { touched = accepted self.old.process.state.touched })
            (without_last self.old.process.levels) }
    {
        self.memory.accept();
        self.settle(code, steps);
    }

    // Carries out what stands before the next `turn`, and costs none. Mostly that is one jump.
    #[inline(always)]
    fn settle(&mut self, code: &Code, steps: &mut Steps<L>)
        requires code { IsExecutable (plain code.now) }
        requires none_waits { self.old.waiting ≡ [] }
        requires settles { (groups : List Membership) × SettlesSoundly (plain code.now) groups self.old.process.state self.old.process.levels }
        ensures settled { self.new ≡ record self.old { process = settled (kind_of (plain code.now)) self.old.process.state self.old.process.levels } }
        ensures work { steps.new ≤ steps.old + 3 * named_settling (plain code.now) self.old.process.state self.old.process.levels }
    {
        match landing(code, self.at) {
            Some(to) => {
                self.at = to;
                self.at_line = false;
                self.status = ProcessStatus::Running;
            }
            None => self.settle_along(code, steps),
        }
    }

    // The same by all instructions that stand there.
    #[cold]
    #[inline(never)]
    fn settle_along(&mut self, code: &Code, steps: &mut Steps<L>)
        requires code { IsExecutable (plain code.now) }
        requires none_waits { self.old.waiting ≡ [] }
        requires settles { (groups : List Membership) × SettlesSoundly (plain code.now) groups self.old.process.state self.old.process.levels }
        ensures settled { self.new ≡ record self.old { process = settled (kind_of (plain code.now)) self.old.process.state self.old.process.levels } }
        ensures work { steps.new ≤ steps.old + 3 * named_settling (plain code.now) self.old.process.state self.old.process.levels }
    {
        let sight = Sight::new(code, self.process, None, Wanted::Step);
        let mut operands = Operands::none(&mut *self.values);
        self.bench.clear();
        let mut none = Mails::none(self.alloc);
        let ended = run(
            code,
            &sight,
            self.at,
            &mut operands,
            &mut self.bench,
            &mut self.memory,
            &mut none,
            steps,
        );
        let at = end_of(ended, self.at);
        self.at = at;
        self.at_line = false;
        self.status = status_here(code, at);
    }

    /// Each open level has used one turn more; tells the first one, from the outside in, that is over its bound then.
    pub fn count_turn(&mut self) -> Option<u32>
        requires few { Each (λ _ level. level.used < 2 ^ 32 - 1) self.old.process.levels }
        ensures turn { self.new ≡ record self.old { process = turn_used self.old.process } }
        ensures over { result ≡ position is_over self.new.process.levels }
    {
        self.memory.count_turn()
    }

    /// A turn was kept.
    pub fn keep(&mut self, turn: u32)
        ensures { self.new ≡ record self.old { process = record self.old.process { state = record self.old.process.state { last_kept = turn } } } }
    {
        self.last_kept = turn;
    }

    /// It stands at the test line of its innermost level.
    pub fn stand(&mut self)
        ensures { self.new ≡ record self.old { process = stands_now self.old.process.state self.old.process.levels } }
    {
        self.at_line = true;
        self.status = ProcessStatus::Running;
    }

    /// Enters the recovery block that stands next, at an alternate; the turn is the last kept one of the level's copy. It is known which block
    /// that is, that the process goes on, and that a `turn` stands behind the entry, as in sound code: so it goes on from there.
    #[inline(always)]
    pub fn enter(&mut self, code: &Code, block: u32, alternate: u32, turn: u32)
        requires code { IsExecutable (plain code.now) }
        requires wants { WantsBlock block (wanted_in (plain code.now) self.old.process.state) }
        requires running { self.old.process.status ≡ Running }
        requires away { self.old.process.at_line ≡ false }
        requires restart { RestartsAt (plain code.now) (self.old.process.state.at + 2) }
        requires room { length self.old.process.levels < MOST_OPEN_LEVELS }
        ensures process { EntersAs (plain code.now)
            (wanted_in (plain code.now) self.old.process.state) alternate turn self.old.process self.new.process }
        ensures waiting { self.new.waiting ≡ self.old.waiting }
    {
        let facts = facts_of(code, block);
        self.at += 2;
        self.last_kept = turn;
        self.memory.open(facts, alternate, self.at, turn);
    }

    /// The copy of an open level is put back, and the levels inside it go. At most one tick for each place that was touched in a level and no
    /// longer is, and one more.
    pub fn put_back(&mut self, level: u32, steps: &mut Steps<L>)
        requires none_waits { self.old.waiting ≡ [] }
        requires level { level < length self.old.process.levels }
        ensures back { (c : Plain) → self.new ≡ record self.old { process = put_back_at (kind_of c) level self.old.process } }
        ensures work { steps.new + places_touched self.new.process.state.touched ≤ steps.old + places_touched self.old.process.state.touched + 1 }
    {
        let mark = self.memory.put_back(level, steps);
        self.at = mark.at;
        self.last_kept = mark.last_kept;
        self.at_line = false;
    }

    /// A level goes on to its next alternate.
    pub fn raise(&mut self, level: u32)
        requires level { level < length self.old.process.levels }
        requires few { IsBelowLast (slice_get self.old.process.levels level) }
        ensures { self.new ≡ record self.old { process = raised level self.old.process } }
    {
        self.memory.raise(level);
    }

    /// The process has failed: its levels go, and are not put back.
    pub fn fail(&mut self, cause: Cause)
        ensures { (c : Plain) → self.new ≡ record self.old { process = fallen (kind_of c) cause self.old.process } }
    {
        self.memory.forget_levels();
        self.at_line = false;
        self.status = ProcessStatus::Failed(cause);
    }

    /// Whether it runs, is done, or has failed, and then with which cause.
    pub fn status(&self) -> ProcessStatus
        ensures { status_of result ≡ self.now.process.status }
    {
        self.status
    }
}

// The address of an end, or else this one.
fn end_of(ended: Ended, at: u32) -> u32
    ensures { result ≡ stop_at ended at }
{
    match ended {
        Ended::Stop(to, _) => to,
        Ended::Accepts(_) | Ended::Trap(_) => at,
    }
}

// The first address of a process.
fn start_of(code: &Code, process: u32) -> u32
    requires { process < length code.now.processes.items }
    ensures { result ≡ (part_of (plain code.now) process).start }
{
    code.processes[process as usize].start
}
