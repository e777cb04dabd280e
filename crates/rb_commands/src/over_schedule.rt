//! The commands over a source and a schedule for it, `run`, `survive` and `stuck`: both are read, and what is made of the one over the other is
//! written.
ghost use Rattle.std.specs.Prelude.{◌≡◌, ◌≤◌, ℕ, List, [], ◌∷◌, length, MatchOption, slice_get, Some};
ghost use Rattle.rb_base.specs.declared.limits.TheConstants.{MOST_TURNS};
ghost use Rattle.rb_code.specs.Instructions.Plain.{code as plain};
ghost use Rattle.rb_conv.specs.Conversations.{memberships, opening};
ghost use Rattle.rb_hall.specs.Ends.{HoldsOn, IfRefused, WriteEnds, wanted_of};
ghost use Rattle.rb_prepare.specs.Prepared.{IsPrepared};
ghost use Rattle.rb_verdict.specs.Judging.{Judges};
ghost use Rattle.rb_verdict.specs.Words.{text_named};
ghost use Rattle.rb_commands.specs.Explained.{ExplainsProgram, NamesOfSource};
ghost use Rattle.rb_commands.specs.Held.{HoldsScheduled};
ghost use Rattle.rb_commands.specs.Products.{command_for, text_for, word_text_for};
ghost use Rattle.rb_turns.specs.Written.{PutsOrMemory};
ghost use Rattle.rb_commands.specs.Written.{EndsOverSchedule};

use crate::source::prepare_source;
use crate::stuck::survey_turns;
use crate::survive::survive_turns;
use crate::why::Why;
use rb_base::MOST_BYTES;
use rb_hall::{Command, Fault, Stop, Unwritten, Wanted, Written};
use rb_outside::{Memory, Sink};
use rb_prepare::Prepared;
use rb_sched::Schedule;
use rb_turns::run_turns;
use std::alloc::Global;
use std::marker::Brand;
use std::sync::ledger::Blank;

/// What a command makes of a source and a schedule for it.
#[derive(Clone, Copy)]
pub enum Product {
    /// The text of the run, for `run`.
    Text,
    /// The survivors of the run as a record, for `survive`.
    Survivors,
    /// How the run stands at its end, for `stuck`.
    Standing,
}

/// `run SOURCE SCHEDULE`, `survive SOURCE SCHEDULE` or `stuck SOURCE SCHEDULE`.
#[derive(Clone, Copy)]
pub struct OverSchedule<'a> {
    pub product: Product,
    pub source: &'a str,
    pub schedule: &'a str,
}

/// What such a command holds: the program, and then the schedule, which is still to be judged, as it borrows the program's names.
#[derive(Drop)]
pub enum Scheduled<'s> {
    Nothing,
    Program(Prepared),
    Both(Prepared, &'s [u8]),
}

impl<'s> Command<'s> for OverSchedule<'_> {
    type Held = Scheduled<'s>;

    type Why = Why;

    ghost wanted = { λ c. text_named c.source.now ∷ text_named c.schedule.now ∷ [] };

    ghost judges = { λ c. Judges (command_for c.product) };

    ghost explains = { λ _. ExplainsProgram NamesOfSource };

    ghost holds = { λ _. HoldsScheduled };

    ghost takes = { λ _. ⊥ };

    fn file(&self, number: usize) -> Option<Wanted<'_>>
        ensures { MatchOption result (2 ≤ number)
            (λ file. slice_get (text_named self.now.source.now ∷ text_named self.now.schedule.now ∷ []) number ≡ Some (wanted_of file)) }
    {
        match number {
            0 => Some(Wanted {
                name: self.source,
                most: MOST_BYTES,
            }),
            1 => Some(Wanted {
                name: self.schedule,
                most: MOST_BYTES,
            }),
            _ => None,
        }
    }

    fn begin(&self, _alloc: Global) -> Result<Scheduled<'s>, Memory> {
        Ok(Scheduled::Nothing)
    }

    fn take(
        &self,
        alloc: Global,
        held: Scheduled<'s>,
        text: &'s [u8],
    ) -> Result<Scheduled<'s>, Stop<Why>> {
        match held {
            Scheduled::Nothing => match prepare_source(alloc, text) {
                Ok(prepared) => Ok(Scheduled::Program(prepared)),
                Err(stop) => Err(stop),
            },
            Scheduled::Program(prepared) => Ok(Scheduled::Both(prepared, text)),
            Scheduled::Both(_, _) => unreachable!(),
        }
    }

    fn write<S: Sink + Drop>(&self, alloc: Global, held: Scheduled<'s>, out: S) -> Written<S, Why> {
        let mut sink = out;
        let ended = self.put(alloc, held, &mut sink);
        Written { sink, ended }
    }
}

impl OverSchedule<'_> {
    // Writes its text.
    fn put<S: Sink>(
        &self,
        alloc: Global,
        held: Scheduled<'_>,
        out: &mut S,
    ) -> Result<(), Unwritten<Why>>
        requires { (texts : List (List ℕ)) × (length texts ≡ 2) × HoldsScheduled texts held }
        ensures { (texts : List (List ℕ)) → length texts ≡ 2 → HoldsScheduled texts held.entry
            → WriteEnds (Judges (command_for self.now.product) texts) (ExplainsProgram NamesOfSource texts) ⊥ (S.written out.old) (S.written out.new) (S.faults out.old)
            (S.faults out.new) result }
    {
        let Scheduled::Both(prepared, text) = held else {
            unreachable!()
        };
        over_text(alloc, self.product, prepared, text, out)
    }
}

// Judges a schedule, and writes what is made of the program over it. A call of its own, as the loop over turns stands in it: beside the reading
// of files a turn takes an instruction more.
#[inline(never)]
fn over_text<S: Sink>(
    alloc: Global,
    product: Product,
    prepared: Prepared,
    text: &[u8],
    out: &mut S,
) -> Result<(), Unwritten<Why>>
    requires prepared { (source : List ℕ) × IsPrepared source prepared }
    requires short { length text.now ≤ MOST_BYTES }
    ensures { (source : List ℕ) → (accepted : IsPrepared source prepared) → EndsOverSchedule (text_for product accepted.tree) NamesOfSource source
        accepted.tree text.now (S.written out.old) (S.written out.new) (S.faults out.old) (S.faults out.new) result }
{
    let fault = match Schedule::read(text, &prepared.code.names) {
        Ok(schedule) => return over_turns(alloc, product, &prepared, schedule, out),
        Err(fault) => fault,
    };
    Err(Unwritten::Refused(Fault::Text(fault), Why::Names(prepared.into_names())))
}

// The schedule is a list of turns.
fn over_turns<S: Sink>(
    alloc: Global,
    product: Product,
    prepared: &Prepared,
    schedule: Schedule<'_>,
    out: &mut S,
) -> Result<(), Unwritten<Why>>
    requires prepared { (source : List ℕ) × IsPrepared source prepared.now }
    requires whole { schedule.left ≡ schedule.all }
    requires turns { length schedule.left ≤ MOST_TURNS }
    ensures { PutsOrMemory (word_text_for product (plain prepared.now.code) (memberships (opening prepared.now.nested)) schedule.entry.all)
        (S.written out.old) (S.written out.new) (S.faults out.old) (S.faults out.new) result }
{
    match product {
        Product::Text => run_turns::<Why, S, Brand>(
            alloc,
            &prepared.code,
            &prepared.nested,
            schedule,
            out,
            Blank::new(1),
        ),
        Product::Survivors => {
            survive_turns::<S, Brand>(alloc, prepared, schedule, out, Blank::new(1))
        }
        Product::Standing => {
            survey_turns::<S, Brand>(alloc, prepared, schedule, out, Blank::new(1))
        }
    }
}
