//! The command `trial`: a source and a schedule are made, and it is written how many lines of each kind the run of the one over the other would
//! print.
ghost use Rattle.std.specs.Prelude.{◌≡◌, ◌≤◌, ◌<◌, ℕ, List, [], ◌∷◌, length};
ghost use Rattle.rb_base.specs.declared.limits.TheConstants.{MOST_BYTES, MOST_TURNS};
ghost use Rattle.rb_code.specs.Instructions.Plain.{code as plain};
ghost use Rattle.rb_conv.specs.Conversations.{memberships, opening};
ghost use Rattle.rb_hall.specs.Ends.{HoldsOn, IfRefused, WriteEnds};
ghost use Rattle.rb_make.specs.Trial.{schedule_of as made_schedule, source_of};
ghost use Rattle.rb_prepare.specs.Prepared.{IsPrepared};
ghost use Rattle.rb_verdict.specs.Judging.{Judges, OverSchedule};
ghost use Rattle.rb_verdict.specs.Summary.{summary_of, summary_text};
ghost use Rattle.rb_verdict.specs.Words.{Trial as Trying};
ghost use Rattle.rb_commands.specs.Explained.{ExplainsSource};
ghost use Rattle.rb_commands.specs.Held.{HoldsNoText};
ghost use Rattle.rb_commands.specs.Products.{word_counts};
ghost use Rattle.rb_turns.specs.Written.{PutsOrMemory};
ghost use Rattle.rb_commands.specs.Written.{EndsPlainly};

use crate::source::prepare_source;
use crate::summary::put_summary;
use crate::why::Why;
use rb_base::Steps;
use rb_hall::{Command, Fault, Stop, Unwritten, Wanted, Written};
use rb_machine::Machine;
use rb_make::make;
use rb_outside::{Memory, Sink};
use rb_prepare::Prepared;
use rb_run::count;
use rb_sched::Schedule;
use std::alloc::Global;
use std::marker::Brand;
use std::sync::ledger::{Blank, Ledger};

/// `trial NUMBER`.
#[derive(Clone, Copy)]
pub struct Trial {
    pub number: u64,
}

/// What a command holds that reads no file.
#[derive(Clone, Copy)]
pub struct NoText;

impl<'s> Command<'s> for Trial {
    type Held = NoText;

    type Why = Why;

    ghost wanted = { λ _. [] };

    ghost judges = { λ c. Judges (Trying c.number) };

    ghost explains = { λ _. ExplainsSource };

    ghost holds = { λ _. HoldsNoText };

    ghost takes = { λ _. ⊥ };

    fn file(&self, _number: usize) -> Option<Wanted<'_>> {
        None
    }

    fn begin(&self, _alloc: Global) -> Result<NoText, Memory> {
        Ok(NoText)
    }

    fn take(&self, _alloc: Global, _held: NoText, _text: &'s [u8]) -> Result<NoText, Stop<Why>> {
        // It has no file, so no text is given to it, and it holds nothing of one.
        Err(Stop::Memory)
    }

    fn write<S: Sink + Drop>(&self, alloc: Global, held: NoText, out: S) -> Written<S, Why> {
        let mut sink = out;
        let ended = self.put(alloc, held, &mut sink);
        Written { sink, ended }
    }
}

impl Trial {
    // Writes its text.
    fn put<S: Sink>(&self, alloc: Global, _held: NoText, out: &mut S) -> Result<(), Unwritten<Why>>
        requires { (texts : List (List ℕ)) × (length texts ≡ 0) × HoldsNoText texts _held }
        ensures { (texts : List (List ℕ)) → length texts ≡ 0 → HoldsNoText texts _held
            → WriteEnds (Judges (Trying self.now.number) texts) (ExplainsSource texts) ⊥ (S.written out.old) (S.written out.new) (S.faults out.old)
            (S.faults out.new) result }
    {
        match make(alloc, self.number) {
            Ok((source, schedule)) => try_texts(
                alloc,
                self.number,
                source.as_slice(),
                schedule.as_slice(),
                out,
            ),
            Err(_) => Err(Unwritten::Memory),
        }
    }
}

// The texts are made, and are judged as if they were read.
fn try_texts<S: Sink>(
    alloc: Global,
    number: u64,
    source: &[u8],
    schedule: &[u8],
    out: &mut S,
) -> Result<(), Unwritten<Why>>
    requires source { source.now ≡ source_of number }
    requires schedule { schedule.now ≡ made_schedule number }
    requires short_source { length source.now ≤ MOST_BYTES }
    requires short_schedule { length schedule.now ≤ MOST_BYTES }
    ensures { WriteEnds (Judges (Trying number) []) (ExplainsSource []) ⊥ (S.written out.old) (S.written out.new) (S.faults out.old) (S.faults out.new)
        result }
{
    match prepare_source(alloc, source) {
        Ok(prepared) => try_schedule(alloc, number, &prepared, schedule, out),
        Err(Stop::Refused(fault, why)) => Err(Unwritten::Refused(fault, why)),
        Err(Stop::Memory) => Err(Unwritten::Memory),
    }
}

// The source was accepted.
fn try_schedule<S: Sink>(
    alloc: Global,
    number: u64,
    prepared: &Prepared,
    text: &[u8],
    out: &mut S,
) -> Result<(), Unwritten<Why>>
    requires prepared { (source : List ℕ) × IsPrepared source prepared.now }
    requires short { length text.now ≤ MOST_BYTES }
    ensures { (source : List ℕ) → (accepted : IsPrepared source prepared.now) → EndsPlainly (OverSchedule (summary_text number) accepted.tree (text.now ∷ []))
        (S.written out.old) (S.written out.new) (S.faults out.old) (S.faults out.new) result }
{
    match Schedule::read(text, &prepared.code.names) {
        Ok(schedule) => {
            try_turns::<S, Brand>(alloc, number, prepared, schedule, out, Blank::new(1))
        }
        Err(fault) => Err(Unwritten::Refused(Fault::Text(fault), Why::Plain)),
    }
}

// The schedule is a list of turns. The ledger counts steps, which contracts alone see.
fn try_turns<S: Sink, L: Ledger>(
    alloc: Global,
    number: u64,
    prepared: &Prepared,
    schedule: Schedule<'_>,
    out: &mut S,
    blank: Blank,
) -> Result<(), Unwritten<Why>>
    requires name { blank.name ≡ L.name }
    requires parts { blank.parts ≡ L.parts }
    requires backed { 0 < blank.parts }
    requires prepared { (source : List ℕ) × IsPrepared source prepared.now }
    requires whole { schedule.left ≡ schedule.all }
    requires turns { length schedule.left ≤ MOST_TURNS }
    ensures { PutsOrMemory (summary_of number (length schedule.entry.all)
        (word_counts (plain prepared.now.code) (memberships (opening prepared.now.nested)) schedule.entry.all))
        (S.written out.old) (S.written out.new) (S.faults out.old) (S.faults out.new) result }
{
    let mut steps = Steps::<L>::start(blank);
    let turns = schedule.turns();
    match Machine::load(alloc, &prepared.code, &prepared.nested, turns, &mut steps) {
        Ok(mut machine) => {
            let counts = count(&mut machine, schedule, &mut steps);
            match put_summary(out, number, turns, counts) {
                Ok(()) => Ok(()),
                Err(_) => Err(Unwritten::Fault),
            }
        }
        Err(_) => Err(Unwritten::Memory),
    }
}
