//! The command `page`: a page is read, and a source and a schedule for it, and the page is written with both and with the trace of the run in the
//! places of its marks.
ghost use Rattle.std.specs.Prelude.{◌≡◌, ◌≤◌, ℕ, List, [], ◌∷◌, length, MatchOption, slice_get, Some};
ghost use Rattle.rb_hall.specs.Ends.{HoldsOn, IfRefused, WriteEnds, wanted_of};
ghost use Rattle.rb_verdict.specs.Judging.{Judges};
ghost use Rattle.rb_verdict.specs.Words.{Page as Paging, text_named};
ghost use Rattle.rb_show.specs.Drawing.{ExplainsPage, HoldsPage};

use crate::put_run::draw;
use crate::traced::{Traced, trace_source};
use rb_base::MOST_BYTES;
use rb_commands::Why;
use rb_hall::{Command, Stop, Wanted, Written};
use rb_outside::{Memory, Sink};
use std::alloc::Global;

/// `page PAGE SOURCE SCHEDULE`.
#[derive(Clone, Copy)]
pub struct Page<'a> {
    pub page: &'a str,
    pub source: &'a str,
    pub schedule: &'a str,
}

/// What `page` holds: the page, then the source, with its text, and then the schedule, which is still to be judged.
#[derive(Drop)]
pub enum Pages<'s> {
    Nothing,
    Page(&'s [u8]),
    Program(&'s [u8], &'s [u8], Traced),
    All(&'s [u8], &'s [u8], Traced, &'s [u8]),
}

impl<'s> Command<'s> for Page<'_> {
    type Held = Pages<'s>;

    type Why = Why;

    ghost wanted = { λ c. text_named c.page.now ∷ text_named c.source.now ∷ text_named c.schedule.now ∷ [] };

    ghost judges = { λ _. Judges Paging };

    ghost explains = { λ _. ExplainsPage };

    ghost holds = { λ _. HoldsPage };

    ghost takes = { λ _. ⊥ };

    fn file(&self, number: usize) -> Option<Wanted<'_>>
        ensures { MatchOption result (3 ≤ number)
            (λ file. slice_get (text_named self.now.page.now ∷ text_named self.now.source.now ∷ text_named self.now.schedule.now ∷ []) number
            ≡ Some (wanted_of file)) }
    {
        match number {
            0 => Some(Wanted {
                name: self.page,
                most: MOST_BYTES,
            }),
            1 => Some(Wanted {
                name: self.source,
                most: MOST_BYTES,
            }),
            2 => Some(Wanted {
                name: self.schedule,
                most: MOST_BYTES,
            }),
            _ => None,
        }
    }

    fn begin(&self, _alloc: Global) -> Result<Pages<'s>, Memory> {
        Ok(Pages::Nothing)
    }

    fn take(&self, alloc: Global, held: Pages<'s>, text: &'s [u8]) -> Result<Pages<'s>, Stop<Why>> {
        match held {
            Pages::Nothing => Ok(Pages::Page(text)),
            Pages::Page(page) => match trace_source(alloc, text) {
                Ok(traced) => Ok(Pages::Program(page, text, traced)),
                Err(stop) => Err(stop),
            },
            Pages::Program(page, source, traced) => Ok(Pages::All(page, source, traced, text)),
            Pages::All(_, _, _, _) => unreachable!(),
        }
    }

    fn write<S: Sink + Drop>(&self, alloc: Global, held: Pages<'s>, out: S) -> Written<S, Why> {
        let Pages::All(page, source, traced, schedule) = held else {
            unreachable!()
        };
        draw(alloc, Some(page), source, traced, schedule, out)
    }
}
