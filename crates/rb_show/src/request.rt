//! All commands of `rblview` as one: what words ask for, and the call that carries it out.
ghost use Rattle.std.specs.Prelude.{◌≡◌, ◌≤◌, [], length, MatchOption, slice_get, Some};
ghost use Rattle.rb_hall.specs.Answers.{scene_of};
ghost use Rattle.rb_hall.specs.Ends.{wanted_of};
ghost use Rattle.rb_hall.specs.Ending.{IsUnwritten};
ghost use Rattle.rb_outside.specs.Outside.{went_well};
ghost use Rattle.rb_commands.specs.declared.request.TheConstants.{MOST_FILES};
ghost use Rattle.rb_show.specs.Wished.{TaskEnds, request_of, task_of};

use crate::explore::Explore;
use crate::faults::Faults;
use crate::page::Page;
use crate::trace::Trace;
use rb_commands::Why;
use rb_commands::saying::Saying;
use rb_hall::{Carried, Command, Wanted, carry_out};
use rb_outside::{Shelf, Sink};
use std::alloc::Global;

/// What is carried out, with the names of the files that are read for it.
#[derive(Drop)]
pub enum Wish<'a> {
    /// What a fault or a cause means.
    Explain(Saying<'a>),
    /// A text that was made for the words.
    Tell(Vec<u8>),
    Trace(Trace<'a>),
    Page(Page<'a>),
    Explore(Explore<'a>),
    Faults(Faults<'a>),
    /// The line that shows the commands, where words ask for nothing.
    Usage(Saying<'a>),
}

/// Carries out what is asked for, with a buffer before the sink, as `command` of `rb_commands` does. Nothing may have been written to the sink
/// before.
pub fn command<'s, F: Shelf, S: Sink + Drop>(
    alloc: Global,
    wish: &Wish<'_>,
    slots: &'s mut [Vec<u8>],
    shelf: &mut F,
    out: S,
) -> Carried<'s, S, Why>
    requires unwritten { IsUnwritten (S.written out) }
    requires slots { MOST_FILES ≤ length slots.old }
    ensures files { F.files shelf.new ≡ F.files shelf.old }
    ensures untouched { (request_of (task_of wish.now)).files ≡ [] → shelf.new ≡ shelf.old }
    ensures ends { TaskEnds (task_of wish.now)
        (scene_of F.files F.starts F.faults S.written (λ sink. went_well (S.faults sink)) shelf.old out)
        (scene_of F.files F.starts F.faults S.written S.faults shelf.new result.sink)
        result.outcome }
{
    match wish {
        Wish::Explain(saying) => carry_out(alloc, saying, slots, shelf, out),
        Wish::Tell(text) => carry_out(alloc, &said(text), slots, shelf, out),
        Wish::Trace(trace) => carry_out(alloc, trace, slots, shelf, out),
        Wish::Page(page) => carry_out(alloc, page, slots, shelf, out),
        Wish::Explore(explore) => carry_out(alloc, explore, slots, shelf, out),
        Wish::Faults(faults) => carry_out(alloc, faults, slots, shelf, out),
        Wish::Usage(usage) => carry_out(alloc, usage, slots, shelf, out),
    }
}

// The writing of a text that was made.
fn said(text: &Vec<u8>) -> Saying<'_>
    ensures { result.text.now ≡ text.now.items }
{
    Saying {
        text: text.as_slice(),
    }
}

impl Wish<'_> {
    /// The file that it reads after so many.
    pub fn file(&self, number: usize) -> Option<Wanted<'_>>
        ensures { MatchOption result (length (request_of (task_of self.now)).files ≤ number)
            (λ file. slice_get (request_of (task_of self.now)).files number ≡ Some (wanted_of file)) }
    {
        match self {
            Wish::Explain(saying) => saying.file(number),
            Wish::Tell(_) => None,
            Wish::Trace(trace) => trace.file(number),
            Wish::Page(page) => page.file(number),
            Wish::Explore(explore) => explore.file(number),
            Wish::Faults(faults) => faults.file(number),
            Wish::Usage(usage) => usage.file(number),
        }
    }
}
