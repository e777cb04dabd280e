//! All commands as one: what words ask for, and the call that carries it out.
ghost use Rattle.std.specs.Prelude.{◌≡◌, ◌≤◌, [], length, MatchOption, slice_get, Some};
ghost use Rattle.rb_hall.specs.Answers.{scene_of};
ghost use Rattle.rb_hall.specs.Ends.{wanted_of};
ghost use Rattle.rb_hall.specs.Ending.{IsUnwritten};
ghost use Rattle.rb_outside.specs.Outside.{went_well};
ghost use Rattle.rb_commands.specs.Asked.{asked};
ghost use Rattle.rb_commands.specs.Requests.{LastsBehind, RequestEnds};

use crate::check::Check;
use crate::code::Code;
use crate::compile::Compile;
use crate::domino::Domino;
use crate::load::Load;
use crate::over_schedule::OverSchedule;
use crate::plain::Plain;
use crate::saying::Saying;
use crate::session::Session;
use crate::trial::Trial;
use crate::why::Why;
use rb_hall::{Carried, Command, Wanted, carry_out};
use rb_outside::{Shelf, Sink};
use std::alloc::Global;

/// What is carried out, with the names of the files that are read for it.
#[derive(Clone, Copy)]
pub enum Request<'a> {
    /// `run`, `survive` or `stuck`.
    OverSchedule(OverSchedule<'a>),
    Plain(Plain<'a>),
    Check(Check<'a>),
    Code(Code<'a>),
    Compile(Compile<'a>),
    Trial(Trial),
    Load(Load<'a>),
    Session(Session<'a>),
    Domino(Domino<'a>),
    /// The line that shows the commands, where words ask for nothing.
    Usage(Saying<'a>),
}

/// How many files a command reads at most.
pub const MOST_FILES: usize = 3;

/// Carries out what is asked for, with a buffer before the sink. The slots take the texts, and what is told of a refusal borrows from them.
/// Nothing may have been written to the sink before.
///
/// `ends` says of each end when it comes, which files were started by then, in which order and how far each was read, and what stands at the sink;
/// after a read or a write that failed there was no other. A call whose files stand on the shelf, and in which no count of faults rose, ends as
/// the verdict on the texts says, or for want of memory. A count that stood at its last value before the call counts as risen. `lasts` says what
/// the text that was written says of the very run that it is of: what survived the run, run alone, ends alike, and a run that is told to be stuck
/// stays so.
pub fn command<'s, F: Shelf, S: Sink + Drop>(
    alloc: Global,
    request: Request<'_>,
    slots: &'s mut [Vec<u8>],
    shelf: &mut F,
    out: S,
) -> Carried<'s, S, Why>
    requires unwritten { IsUnwritten (S.written out) }
    requires slots { MOST_FILES ≤ length slots.old }
    ensures files { F.files shelf.new ≡ F.files shelf.old }
    ensures untouched { (asked request.entry).files ≡ [] → shelf.new ≡ shelf.old }
    ensures ends { RequestEnds request.entry
        (scene_of F.files F.starts F.faults S.written (λ sink. went_well (S.faults sink)) shelf.old out)
        (scene_of F.files F.starts F.faults S.written S.faults shelf.new result.sink)
        result.outcome }
    ensures lasts { LastsBehind (asked request.entry)
        (scene_of F.files F.starts F.faults S.written (λ sink. went_well (S.faults sink)) shelf.old out)
        (scene_of F.files F.starts F.faults S.written S.faults shelf.new result.sink)
        result.outcome }
{
    carry(alloc, &request, slots, shelf, out)
}

// The same, each end with its cause.
fn carry<'s, F: Shelf, S: Sink + Drop>(
    alloc: Global,
    request: &Request<'_>,
    slots: &'s mut [Vec<u8>],
    shelf: &mut F,
    out: S,
) -> Carried<'s, S, Why>
    requires unwritten { IsUnwritten (S.written out) }
    requires slots { MOST_FILES ≤ length slots.old }
    ensures files { F.files shelf.new ≡ F.files shelf.old }
    ensures untouched { (asked request.now).files ≡ [] → shelf.new ≡ shelf.old }
    ensures ends { RequestEnds request.now
        (scene_of F.files F.starts F.faults S.written (λ sink. went_well (S.faults sink)) shelf.old out)
        (scene_of F.files F.starts F.faults S.written S.faults shelf.new result.sink)
        result.outcome }
{
    match request {
        Request::OverSchedule(over) => carry_out(alloc, over, slots, shelf, out),
        Request::Plain(plain) => carry_out(alloc, plain, slots, shelf, out),
        Request::Check(check) => carry_out(alloc, check, slots, shelf, out),
        Request::Code(code) => carry_out(alloc, code, slots, shelf, out),
        Request::Compile(compile) => carry_out(alloc, compile, slots, shelf, out),
        Request::Trial(trial) => carry_out(alloc, trial, slots, shelf, out),
        Request::Load(load) => carry_out(alloc, load, slots, shelf, out),
        Request::Session(session) => carry_out(alloc, session, slots, shelf, out),
        Request::Domino(domino) => carry_out(alloc, domino, slots, shelf, out),
        Request::Usage(usage) => carry_out(alloc, usage, slots, shelf, out),
    }
}

impl Request<'_> {
    /// The file that it reads after so many.
    pub fn file(&self, number: usize) -> Option<Wanted<'_>>
        ensures { MatchOption result (length (asked self.now).files ≤ number)
            (λ file. slice_get (asked self.now).files number ≡ Some (wanted_of file)) }
    {
        match self {
            Request::OverSchedule(over) => over.file(number),
            Request::Plain(plain) => plain.file(number),
            Request::Check(check) => check.file(number),
            Request::Code(code) => code.file(number),
            Request::Compile(compile) => compile.file(number),
            Request::Trial(trial) => trial.file(number),
            Request::Load(load) => load.file(number),
            Request::Session(session) => session.file(number),
            Request::Domino(domino) => domino.file(number),
            Request::Usage(usage) => usage.file(number),
        }
    }
}
