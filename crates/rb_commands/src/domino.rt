//! The command `domino`: a history is read, and what its failure leaves is written.
ghost use Rattle.std.specs.Prelude.{◌≡◌, ◌<◌, ◌≤◌, [], ◌∷◌, length, ℕ, List};
ghost use Rattle.rb_domino.specs.Recovery.{outcome_of};
ghost use Rattle.rb_domino.specs.Written.{outcome_text};
ghost use Rattle.rb_hall.specs.Ends.{HoldsOn, IfRefused, WriteEnds};
ghost use Rattle.rb_verdict.specs.Judging.{Judges};
ghost use Rattle.rb_verdict.specs.Words.{Analyse, text_named};
ghost use Rattle.rb_commands.specs.Explained.{ExplainsSource};
ghost use Rattle.rb_commands.specs.Held.{HoldsHistory};
ghost use Rattle.rb_turns.specs.Written.{PutsOrMemory};

use crate::why::Why;
use rb_base::{MOST_BYTES, Steps};
use rb_domino::{History, HistoryRefusal, analyse, write_analysis};
use rb_hall::{Command, Fault, Stop, Unwritten, Wanted, Written};
use rb_outside::{Memory, Sink};
use std::alloc::Global;
use std::marker::Brand;
use std::sync::ledger::{Blank, Ledger};

/// `domino HISTORY`.
#[derive(Clone, Copy)]
pub struct Domino<'a> {
    pub history: &'a str,
}

/// What `domino` holds.
#[derive(Drop)]
pub enum Told {
    Nothing,
    Story(History),
}

impl<'s> Command<'s> for Domino<'_> {
    type Held = Told;

    type Why = Why;

    ghost wanted = { λ c. text_named c.history.now ∷ [] };

    ghost judges = { λ _. Judges Analyse };

    ghost explains = { λ _. ExplainsSource };

    ghost holds = { λ _. HoldsHistory };

    ghost takes = { λ _. ⊥ };

    fn file(&self, number: usize) -> Option<Wanted<'_>> {
        match number {
            0 => Some(Wanted {
                name: self.history,
                most: MOST_BYTES,
            }),
            _ => None,
        }
    }

    fn begin(&self, _alloc: Global) -> Result<Told, Memory> {
        Ok(Told::Nothing)
    }

    fn take(&self, alloc: Global, held: Told, text: &'s [u8]) -> Result<Told, Stop<Why>> {
        match held {
            Told::Nothing => match History::read(alloc, text) {
                Ok(history) => Ok(Told::Story(history)),
                Err(HistoryRefusal::Fault(fault)) => Err(Stop::Refused(
                    Fault::Text(fault),
                    Why::Plain,
                )),
                Err(HistoryRefusal::Memory) => Err(Stop::Memory),
            },
            Told::Story(_) => unreachable!(),
        }
    }

    fn write<S: Sink + Drop>(&self, alloc: Global, held: Told, out: S) -> Written<S, Why> {
        let mut sink = out;
        let ended = self.put(alloc, held, &mut sink);
        Written { sink, ended }
    }
}

impl Domino<'_> {
    // Writes its text.
    fn put<S: Sink>(&self, alloc: Global, held: Told, out: &mut S) -> Result<(), Unwritten<Why>>
        requires { (texts : List (List ℕ)) × (length texts ≡ 1) × HoldsHistory texts held }
        ensures { (texts : List (List ℕ)) → length texts ≡ 1 → HoldsHistory texts held
            → WriteEnds (Judges Analyse texts) (ExplainsSource texts) ⊥ (S.written out.old) (S.written out.new) (S.faults out.old)
            (S.faults out.new) result }
    {
        let Told::Story(history) = held else {
            unreachable!()
        };
        tell_outcome::<S, Brand>(alloc, &history, out, Blank::new(1))
    }
}

// Writes what the failure of a history leaves. The ledger counts steps, which contracts alone see.
fn tell_outcome<S: Sink, L: Ledger>(
    alloc: Global,
    history: &History,
    out: &mut S,
    blank: Blank,
) -> Result<(), Unwritten<Why>>
    requires name { blank.name ≡ L.name }
    requires parts { blank.parts ≡ L.parts }
    requires backed { 0 < blank.parts }
    ensures { PutsOrMemory (outcome_text history.now (outcome_of history.now)) (S.written out.old) (S.written out.new)
        (S.faults out.old) (S.faults out.new) result }
{
    let mut steps = Steps::<L>::start(blank);
    match analyse(alloc, history, &mut steps) {
        Ok(analysis) => match write_analysis(history, &analysis, out) {
            Ok(()) => Ok(()),
            Err(_) => Err(Unwritten::Fault),
        },
        Err(_) => Err(Unwritten::Memory),
    }
}
