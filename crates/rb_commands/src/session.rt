//! The command `session`: a source is read, a schedule for it, and a session that steps forth and back over the run; and what the session shows
//! is written.
ghost use Rattle.std.specs.Prelude.{◌≡◌, ◌≤◌, ◌<◌, ℕ, List, [], ◌∷◌, length, vec_len, MatchOption, MatchResult, slice_get, Some, Err};
ghost use Rattle.rb_base.specs.Naming.{process_names};
ghost use Rattle.rb_base.specs.declared.limits.TheConstants.{MOST_TURNS};
ghost use Rattle.rb_script.specs.Script.{CanFollow};
ghost use Rattle.rb_script.specs.Shown.{session_text};
ghost use Rattle.rb_code.specs.Instructions.Plain.{code as plain};
ghost use Rattle.rb_conv.specs.Conversations.{memberships, opening};
ghost use Rattle.rb_hall.specs.Ends.{HoldsOn, IfRefused, WriteEnds, wanted_of};
ghost use Rattle.rb_verdict.specs.Judging.{Judges};
ghost use Rattle.rb_prepare.specs.Prepared.{IsPrepared};
ghost use Rattle.rb_sched.specs.Schedule.{schedule_of};
ghost use Rattle.rb_verdict.specs.Words.{Session as Showing, text_named};
ghost use Rattle.rb_commands.specs.Explained.{ExplainsProgram, NamesOfSource};
ghost use Rattle.rb_commands.specs.Held.{HasTurns, HoldsSession, TakesTurns};
ghost use Rattle.rb_commands.specs.Written.{EndsSession, PutsFrontOrMemory, unwritten_of_following};

use crate::source::prepare_source;
use crate::why::Why;
use rb_back::{Session as Steppable, Stopped, show_all};
use rb_base::{MOST_BYTES, Names, Steps, TextFault};
use rb_hall::{Command, Fault, Stop, Unwritten, Wanted, Written};
use rb_outside::{Memory, Sink};
use rb_prepare::Prepared;
use rb_sched::Schedule;
use rb_script::Script;
use std::alloc::Global;
use std::marker::Brand;
use std::sync::ledger::{Blank, Ledger};

/// `session SOURCE SCHEDULE SESSION`.
#[derive(Clone, Copy)]
pub struct Session<'a> {
    pub source: &'a str,
    pub schedule: &'a str,
    pub session: &'a str,
}

/// What `session` holds: the program, then the schedule with how many turns it has, and then the session, which is still to be judged.
#[derive(Drop)]
pub enum Shown<'s> {
    Nothing,
    Program(Prepared),
    Turns(Prepared, &'s [u8], u32),
    All(Prepared, &'s [u8], u32, &'s [u8]),
}

impl<'s> Command<'s> for Session<'_> {
    type Held = Shown<'s>;

    type Why = Why;

    ghost wanted = { λ c. text_named c.source.now ∷ text_named c.schedule.now ∷ text_named c.session.now ∷ [] };

    ghost judges = { λ _. Judges Showing };

    ghost explains = { λ _. ExplainsProgram NamesOfSource };

    ghost holds = { λ _. HoldsSession };

    ghost takes = { λ _. Unit {0} };

    fn file(&self, number: usize) -> Option<Wanted<'_>>
        ensures { MatchOption result (3 ≤ number)
            (λ file. slice_get (text_named self.now.source.now ∷ text_named self.now.schedule.now ∷ text_named self.now.session.now ∷ []) number
            ≡ Some (wanted_of file)) }
    {
        match number {
            0 => Some(Wanted {
                name: self.source,
                most: MOST_BYTES,
            }),
            1 => Some(Wanted {
                name: self.schedule,
                most: MOST_BYTES,
            }),
            2 => Some(Wanted {
                name: self.session,
                most: MOST_BYTES,
            }),
            _ => None,
        }
    }

    fn begin(&self, _alloc: Global) -> Result<Shown<'s>, Memory> {
        Ok(Shown::Nothing)
    }

    fn take(&self, alloc: Global, held: Shown<'s>, text: &'s [u8]) -> Result<Shown<'s>, Stop<Why>> {
        match held {
            Shown::Nothing => match prepare_source(alloc, text) {
                Ok(prepared) => Ok(Shown::Program(prepared)),
                Err(stop) => Err(stop),
            },
            Shown::Program(prepared) => take_turns(prepared, text),
            Shown::Turns(prepared, schedule, turns) => {
                Ok(Shown::All(prepared, schedule, turns, text))
            }
            Shown::All(_, _, _, _) => unreachable!(),
        }
    }

    fn write<S: Sink + Drop>(&self, alloc: Global, held: Shown<'s>, out: S) -> Written<S, Why> {
        let mut sink = out;
        let ended = self.put(alloc, held, &mut sink);
        Written { sink, ended }
    }
}

impl Session<'_> {
    // Writes its text.
    fn put<S: Sink>(
        &self,
        alloc: Global,
        held: Shown<'_>,
        out: &mut S,
    ) -> Result<(), Unwritten<Why>>
        requires { (texts : List (List ℕ)) × (length texts ≡ 3) × HoldsSession texts held }
        ensures { (texts : List (List ℕ)) → length texts ≡ 3 → HoldsSession texts held.entry
            → WriteEnds (Judges Showing texts) (ExplainsProgram NamesOfSource texts) (Unit {0}) (S.written out.old) (S.written out.new) (S.faults out.old)
            (S.faults out.new) result }
    {
        let Shown::All(prepared, schedule, turns, session) = held else {
            unreachable!()
        };
        show(alloc, prepared, schedule, turns, session, out)
    }
}

// Judges a schedule. What is kept of it is its text, with how many turns it has, as it borrows the names of the program.
fn take_turns<'s>(prepared: Prepared, text: &'s [u8]) -> Result<Shown<'s>, Stop<Why>>
    requires prepared { (source : List ℕ) × IsPrepared source prepared }
    requires short { length text.now ≤ MOST_BYTES }
    ensures { (source : List ℕ) → IsPrepared source prepared → TakesTurns source text.now result }
{
    match count_turns(text, &prepared.code.names) {
        Ok(turns) => Ok(Shown::Turns(prepared, text, turns)),
        Err(fault) => Err(Stop::Refused(Fault::Text(fault), Why::Names(prepared.into_names()))),
    }
}

// How many turns a schedule has, or its first fault.
fn count_turns(text: &[u8], names: &Names) -> Result<u32, TextFault>
    requires { length text.now ≤ MOST_BYTES }
    ensures { MatchResult result (HasTurns (process_names names.now) text.now)
        (λ fault. schedule_of (process_names names.now) text.now ≡ Err fault) }
{
    match Schedule::read(text, names) {
        Ok(schedule) => Ok(schedule.turns()),
        Err(fault) => Err(fault),
    }
}

// Judges a session over turns that were read before, and writes what it shows.
fn show<S: Sink>(
    alloc: Global,
    prepared: Prepared,
    schedule: &[u8],
    turns: u32,
    session: &[u8],
    out: &mut S,
) -> Result<(), Unwritten<Why>>
    requires prepared { (source : List ℕ) × IsPrepared source prepared }
    requires read { HasTurns (process_names prepared.code.names) schedule.now turns }
    requires short { length session.now ≤ MOST_BYTES }
    ensures { (source : List ℕ) → (accepted : IsPrepared source prepared) → EndsSession source accepted.tree schedule.now session.now
        (S.written out.old) (S.written out.new) (S.faults out.old) (S.faults out.new) result }
{
    let fault = match Script::read(session, &prepared.code.names, turns) {
        Ok(script) => {
            let again = Schedule::counted(schedule, &prepared.code.names, turns);
            return follow::<S, Brand>(alloc, &prepared, again, script, out, Blank::new(1));
        }
        Err(fault) => fault,
    };
    Err(Unwritten::Refused(Fault::Text(fault), Why::Names(prepared.into_names())))
}

// Follows the orders of a session over the run. The ledger counts steps, which contracts alone see.
fn follow<S: Sink, L: Ledger>(
    alloc: Global,
    prepared: &Prepared,
    turns: Schedule<'_>,
    script: Script<'_>,
    out: &mut S,
    blank: Blank,
) -> Result<(), Unwritten<Why>>
    requires name { blank.name ≡ L.name }
    requires parts { blank.parts ≡ L.parts }
    requires backed { 0 < blank.parts }
    requires prepared { (source : List ℕ) × IsPrepared source prepared.now }
    requires whole { turns.left ≡ turns.all }
    requires few { length turns.left ≤ MOST_TURNS }
    requires can_follow { CanFollow (vec_len prepared.now.code.names.processes) (length turns.left) 0 script }
    ensures { PutsFrontOrMemory (session_text (plain prepared.now.code) (memberships (opening prepared.now.nested)) turns.entry.all script.entry)
        (S.written out.old) (S.written out.new) (S.faults out.old) (S.faults out.new) result }
{
    let mut steps = Steps::<L>::start(blank);
    let names = &prepared.code.names;
    let most = turns.turns();
    match Steppable::load(alloc, &prepared.code, &prepared.nested, most, &mut steps) {
        Ok(mut session) => {
            unwritten_of(show_all(&mut session, names, script, turns, out, &mut steps))
        }
        Err(_) => Err(Unwritten::Memory),
    }
}

// How the call ends after a session was followed.
fn unwritten_of(followed: Result<(), Stopped>) -> Result<(), Unwritten<Why>>
    ensures { result ≡ unwritten_of_following followed }
{
    match followed {
        Ok(()) => Ok(()),
        Err(Stopped::WriteFault) => Err(Unwritten::Fault),
        Err(Stopped::Memory) => Err(Unwritten::Memory),
    }
}
