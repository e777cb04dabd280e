//! The command `trace`: a source and a schedule for it are read, and the trace of the run of the one over the other is written.
ghost use Rattle.std.specs.Prelude.{◌≡◌, ◌≤◌, ℕ, List, [], ◌∷◌, length, MatchOption, slice_get, Some, None};
ghost use Rattle.rb_hall.specs.Ends.{HoldsOn, IfRefused, WriteEnds, wanted_of};
ghost use Rattle.rb_verdict.specs.Judging.{Judges};
ghost use Rattle.rb_verdict.specs.Words.{Trace as Tracing, text_named};
ghost use Rattle.rb_commands.specs.Explained.{ExplainsProgram, NamesOfSource};
ghost use Rattle.rb_show.specs.Drawing.{HoldsTrace};

use crate::put_run::draw;
use crate::traced::{Traced, trace_source};
use rb_base::MOST_BYTES;
use rb_commands::Why;
use rb_hall::{Command, Stop, Wanted, Written};
use rb_outside::{Memory, Sink};
use std::alloc::Global;

/// `trace SOURCE SCHEDULE`.
#[derive(Clone, Copy)]
pub struct Trace<'a> {
    pub source: &'a str,
    pub schedule: &'a str,
}

/// What `trace` holds: the source, with its text, and then the schedule, which is still to be judged, as it borrows the program's names.
#[derive(Drop)]
pub enum Traces<'s> {
    Nothing,
    Program(&'s [u8], Traced),
    Both(&'s [u8], Traced, &'s [u8]),
}

impl<'s> Command<'s> for Trace<'_> {
    type Held = Traces<'s>;

    type Why = Why;

    ghost wanted = { λ c. text_named c.source.now ∷ text_named c.schedule.now ∷ [] };

    ghost judges = { λ _. Judges Tracing };

    ghost explains = { λ _. ExplainsProgram NamesOfSource };

    ghost holds = { λ _. HoldsTrace };

    ghost takes = { λ _. ⊥ };

    fn file(&self, number: usize) -> Option<Wanted<'_>>
        ensures { MatchOption result (2 ≤ number)
            (λ file. slice_get (text_named self.now.source.now ∷ text_named self.now.schedule.now ∷ []) number ≡ Some (wanted_of file)) }
    {
        match number {
            0 => Some(Wanted {
                name: self.source,
                most: MOST_BYTES,
            }),
            1 => Some(Wanted {
                name: self.schedule,
                most: MOST_BYTES,
            }),
            _ => None,
        }
    }

    fn begin(&self, _alloc: Global) -> Result<Traces<'s>, Memory> {
        Ok(Traces::Nothing)
    }

    fn take(
        &self,
        alloc: Global,
        held: Traces<'s>,
        text: &'s [u8],
    ) -> Result<Traces<'s>, Stop<Why>> {
        match held {
            Traces::Nothing => match trace_source(alloc, text) {
                Ok(traced) => Ok(Traces::Program(text, traced)),
                Err(stop) => Err(stop),
            },
            Traces::Program(source, traced) => Ok(Traces::Both(source, traced, text)),
            Traces::Both(_, _, _) => unreachable!(),
        }
    }

    fn write<S: Sink + Drop>(&self, alloc: Global, held: Traces<'s>, out: S) -> Written<S, Why> {
        let Traces::Both(source, traced, schedule) = held else {
            unreachable!()
        };
        draw(alloc, None, source, traced, schedule, out)
    }
}
