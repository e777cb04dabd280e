//! The command `explore`: a source is read, and what it comes to over all schedules is written, or a schedule that leads to one outcome.
ghost use Rattle.std.specs.Prelude.{◌≡◌, ◌≤◌, [], ◌∷◌, length, ℕ, List};
ghost use Rattle.rb_hall.specs.Ends.{HoldsOn, IfRefused, WriteEnds};
ghost use Rattle.rb_verdict.specs.Words.{text_named};
ghost use Rattle.rb_commands.specs.Explained.{ExplainsSource};
ghost use Rattle.rb_commands.specs.Held.{HoldsCompiled};
ghost use Rattle.rb_show.specs.Explored.{JudgesExplored};

use crate::searched::{search, tell_answer};
use rb_base::MOST_BYTES;
use rb_commands::Why;
use rb_commands::source::{Compiled, take_source};
use rb_hall::{Command, Stop, Unwritten, Wanted, Written};
use rb_outside::{Memory, Sink};
use std::alloc::Global;
use std::marker::Brand;
use std::sync::ledger::Blank;

/// `explore SOURCE`, or `explore SOURCE NUMBER`.
#[derive(Clone, Copy)]
pub struct Explore<'a> {
    pub source: &'a str,
    /// The outcome to which a schedule is wanted, of which the first has number 1; none where all outcomes are wanted.
    pub number: Option<u64>,
}

impl<'s> Command<'s> for Explore<'_> {
    type Held = Compiled;

    type Why = Why;

    ghost wanted = { λ c. text_named c.source.now ∷ [] };

    ghost judges = { λ c. JudgesExplored c.number };

    ghost explains = { λ _. ExplainsSource };

    ghost holds = { λ _. HoldsCompiled };

    ghost takes = { λ _. ⊥ };

    fn file(&self, number: usize) -> Option<Wanted<'_>> {
        match number {
            0 => Some(Wanted {
                name: self.source,
                most: MOST_BYTES,
            }),
            _ => None,
        }
    }

    fn begin(&self, _alloc: Global) -> Result<Compiled, Memory> {
        Ok(Compiled::Nothing)
    }

    fn take(&self, alloc: Global, held: Compiled, text: &'s [u8]) -> Result<Compiled, Stop<Why>> {
        match held {
            Compiled::Nothing => take_source(alloc, text),
            Compiled::Program(_) => unreachable!(),
        }
    }

    fn write<S: Sink + Drop>(&self, alloc: Global, held: Compiled, out: S) -> Written<S, Why> {
        let mut sink = out;
        let ended = self.put(alloc, held, &mut sink);
        Written { sink, ended }
    }
}

impl Explore<'_> {
    // Searches, and tells the answer.
    fn put<S: Sink>(&self, alloc: Global, held: Compiled, out: &mut S) -> Result<(), Unwritten<Why>>
        requires { (texts : List (List ℕ)) × (length texts ≡ 1) × HoldsCompiled texts held }
        ensures { (texts : List (List ℕ)) → length texts ≡ 1 → HoldsCompiled texts held
            → WriteEnds (JudgesExplored self.now.number texts) (ExplainsSource texts) ⊥ (S.written out.old) (S.written out.new) (S.faults out.old)
            (S.faults out.new) result }
    {
        let Compiled::Program(prepared) = held else {
            unreachable!()
        };
        match search::<Brand>(alloc, &prepared, Blank::new(1)) {
            Ok(answer) => tell_answer(&prepared.code.names, &answer, self.number, out),
            Err(_) => Err(Unwritten::Memory),
        }
    }
}
