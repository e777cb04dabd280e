//! The call that `main` makes: from words, a shelf and two sinks to an exit status.
ghost use Rattle.std.specs.Prelude.{◌≡◌, codes, option_map};
ghost use Rattle.rb_hall.specs.Ends.{wanted_of};
ghost use Rattle.rb_hall.specs.Answers.{scene_of};
ghost use Rattle.rb_hall.specs.Ending.{IsUnwritten};
ghost use Rattle.rb_outside.specs.Outside.{went_well};
ghost use Rattle.rb_asking.specs.Guides.{command_guides};
ghost use Rattle.rb_asking.specs.Misasked.{misasked_text};
ghost use Rattle.rb_commands.specs.Asked.{asked};
ghost use Rattle.rb_tell.specs.Entrance.{ProgramEnds, RblEnds, file_of, number_of as exit_status, wrong_in};
ghost use Rattle.rb_tell.specs.Telling.{IsShortEnd, TellsDone, TellsEnd};

use crate::end::{End, Telling, put_told, tell};
use crate::host::Blamed;
use rb_asking::misasked::misasked;
use rb_asking::{Words, command_guides};
use rb_commands::{Request, Why, command, requested};
use rb_hall::{Outcome, Wanted};
use rb_outside::{Shelf, Sink};
use std::alloc::Global;

/// The exit status where memory is wanting.
const NO_MEMORY: u8 = 5;

/// The sink that a command wrote to, the exit status, and what became of what standard error is told.
#[derive(Drop)]
pub struct Left<S> {
    pub sink: S,
    pub number: u8,
    pub told: Telling,
}

/// Carries out what the words ask for over a shelf and a sink, tells on the other sink why a text was refused, from the bytes that were read of
/// it, which file could not be read, that nothing could be written, or what was wrong with words that ask for nothing; and gives the exit status:
/// 0 where the text was written, 1 where a text is refused, 2 where the words ask for nothing, 3 where a file can't be read, 4 where the text can't
/// be written, 5 where memory is wanting. Nothing may have been written to the first sink before.
pub fn hall<F: Shelf + Blamed, S: Sink + Blamed + Drop, E: Sink>(
    alloc: Global,
    words: &Words,
    shelf: &mut F,
    out: S,
    err: &mut E,
) -> Left<S>
    requires { IsUnwritten (S.written out) }
    ensures files { F.files shelf.new ≡ F.files shelf.old }
    ensures ends { RblEnds words.now
        (scene_of F.files F.starts F.faults S.written (λ sink. went_well (S.faults sink)) shelf.old out)
        (scene_of F.files F.starts F.faults S.written S.faults shelf.new result.sink)
        (E.written err.old) (E.written err.new) (E.faults err.old) (E.faults err.new) result.number result.told }
{
    let Ok(request) = requested(alloc, words) else {
        return Left {
            sink: out,
            number: NO_MEMORY,
            told: Telling::Nothing,
        };
    };
    carried(alloc, request, words, shelf, out, err)
}

// Carries out what the words ask for, and tells how it ended.
fn carried<F: Shelf + Blamed, S: Sink + Blamed + Drop, E: Sink>(
    alloc: Global,
    request: Request<'_>,
    words: &Words,
    shelf: &mut F,
    out: S,
    err: &mut E,
) -> Left<S>
    requires { IsUnwritten (S.written out) }
    ensures files { F.files shelf.new ≡ F.files shelf.old }
    ensures ends { ProgramEnds (codes "rbl") (asked request.entry) (misasked_text command_guides (codes "rbl") words.now)
        (scene_of F.files F.starts F.faults S.written (λ sink. went_well (S.faults sink)) shelf.old out)
        (scene_of F.files F.starts F.faults S.written S.faults shelf.new result.sink)
        (E.written err.old) (E.written err.new) (E.faults err.old) (E.faults err.new) result.number result.told }
{
    let mut slots = [Vec::new(alloc), Vec::new(alloc), Vec::new(alloc)];
    let carried = command(alloc, request, &mut slots, shelf, out);
    let said = End {
        unread: shelf.reason(),
        unwritten: carried.sink.reason(),
    };
    let file = file_in(&request, &carried.outcome);
    let told = tell_end(alloc, &request, words, file, &carried.outcome, said, err);
    Left {
        number: number_of(&request, &carried.outcome),
        sink: carried.sink,
        told,
    }
}

// Tells how a request ended that was carried out for these words.
fn tell_end<E: Sink>(
    alloc: Global,
    request: &Request<'_>,
    words: &Words,
    file: Option<Wanted<'_>>,
    outcome: &Outcome<'_, Why>,
    said: End,
    err: &mut E,
) -> Telling
    ensures { IsShortEnd outcome.now
        → TellsEnd (codes "rbl") (wrong_in (asked request.now).command (misasked_text command_guides (codes "rbl") words.now))
        (option_map wanted_of file.entry) outcome.now (E.written err.old) (E.written err.new) (E.faults err.old) (E.faults err.new) result }
{
    match outcome {
        Outcome::Done => tell_done(alloc, request, words, err),
        _ => tell(alloc, "rbl", file, outcome, said, err),
    }
}

// Tells what was wrong with words that ask for nothing.
fn tell_done<E: Sink>(alloc: Global, request: &Request<'_>, words: &Words, err: &mut E) -> Telling
    ensures { TellsDone (wrong_in (asked request.now).command (misasked_text command_guides (codes "rbl") words.now))
        (E.written err.old) (E.written err.new) (E.faults err.old) (E.faults err.new) result }
{
    match request {
        Request::Usage(_) => put_told(misasked(alloc, command_guides(), "rbl", words), err),
        _ => Telling::Nothing,
    }
}

// The file that an end is about.
fn file_in<'r>(request: &'r Request<'_>, outcome: &Outcome<'_, Why>) -> Option<Wanted<'r>>
    ensures { option_map wanted_of result ≡ file_of (asked request.now) outcome.now }
{
    match outcome {
        Outcome::Refused(refusal) => request.file(refusal.number),
        Outcome::ReadFault(number) => request.file(*number),
        Outcome::Done | Outcome::WriteFault | Outcome::Memory => None,
    }
}

// The exit status of an end.
fn number_of(request: &Request<'_>, outcome: &Outcome<'_, Why>) -> u8
    ensures { result ≡ exit_status (asked request.now).command outcome.now }
{
    match outcome {
        Outcome::Done if matches!(request, Request::Usage(_)) => 2,
        Outcome::Done => 0,
        Outcome::Refused(_) => 1,
        Outcome::ReadFault(_) => 3,
        Outcome::WriteFault => 4,
        Outcome::Memory => NO_MEMORY,
    }
}
