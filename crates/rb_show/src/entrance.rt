//! The call that `main` makes: from words, a shelf and two sinks to an exit status, as `hall` of `rb_tell` does.
ghost use Rattle.std.specs.Prelude.{◌≡◌, codes, option_map};
ghost use Rattle.rb_hall.specs.Ends.{wanted_of};
ghost use Rattle.rb_hall.specs.Answers.{scene_of};
ghost use Rattle.rb_hall.specs.Ending.{IsUnwritten};
ghost use Rattle.rb_outside.specs.Outside.{went_well};
ghost use Rattle.rb_tell.specs.Entrance.{file_of, number_of as exit_status, wrong_in};
ghost use Rattle.rb_tell.specs.Telling.{IsShortEnd, TellsDone, TellsEnd};
ghost use Rattle.rb_show.specs.Entrance.{RblviewEnds, ViewEnds, view_wrong};
ghost use Rattle.rb_asking.specs.Views.{view_of};
ghost use Rattle.rb_show.specs.Wished.{request_of, task_of};

use crate::asking::{requested, view_wrong};
use crate::request::{Wish, command};
use rb_asking::Words;
use rb_commands::Why;
use rb_hall::{Outcome, Wanted};
use rb_outside::{Shelf, Sink};
use rb_tell::{Blamed, End, Left, Telling, put_told, tell};
use std::alloc::Global;

/// The exit status where memory is wanting.
const NO_MEMORY: u8 = 5;

/// Carries out what the words ask for over a shelf and a sink, tells on the other sink why a text was refused, from the bytes that were read of
/// it, which file could not be read, that nothing could be written, or what was wrong with words that ask for nothing; and gives the exit status:
/// 0 where the text was written, 1 where a text is refused, 2 where the words ask for nothing, 3 where a file can't be read, 4 where the text can't
/// be written, 5 where memory is wanting. Nothing may have been written to the first sink before.
pub fn hall<F: Shelf + Blamed, S: Sink + Blamed + Drop, E: Sink>(
    alloc: Global,
    words: &Words,
    shelf: &mut F,
    out: S,
    err: &mut E,
) -> Left<S>
    requires { IsUnwritten (S.written out) }
    ensures files { F.files shelf.new ≡ F.files shelf.old }
    ensures ends { RblviewEnds words.now
        (scene_of F.files F.starts F.faults S.written (λ sink. went_well (S.faults sink)) shelf.old out)
        (scene_of F.files F.starts F.faults S.written S.faults shelf.new result.sink)
        (E.written err.old) (E.written err.new) (E.faults err.old) (E.faults err.new) result.number result.told }
{
    let Ok(wish) = requested(alloc, words) else {
        return Left {
            sink: out,
            number: NO_MEMORY,
            told: Telling::Nothing,
        };
    };
    carried(alloc, wish, words, shelf, out, err)
}

// Carries out what the words ask for, and tells how it ended.
fn carried<F: Shelf + Blamed, S: Sink + Blamed + Drop, E: Sink>(
    alloc: Global,
    wish: Wish<'_>,
    words: &Words,
    shelf: &mut F,
    out: S,
    err: &mut E,
) -> Left<S>
    requires { IsUnwritten (S.written out) }
    ensures files { F.files shelf.new ≡ F.files shelf.old }
    ensures ends { ViewEnds (task_of wish.entry) (view_wrong words.now (view_of words.now))
        (scene_of F.files F.starts F.faults S.written (λ sink. went_well (S.faults sink)) shelf.old out)
        (scene_of F.files F.starts F.faults S.written S.faults shelf.new result.sink)
        (E.written err.old) (E.written err.new) (E.faults err.old) (E.faults err.new) result.number result.told }
{
    let mut slots = [Vec::new(alloc), Vec::new(alloc), Vec::new(alloc)];
    let carried = command(alloc, &wish, &mut slots, shelf, out);
    let said = End {
        unread: shelf.reason(),
        unwritten: carried.sink.reason(),
    };
    let file = file_in(&wish, &carried.outcome);
    let told = tell_end(alloc, &wish, words, file, &carried.outcome, said, err);
    Left {
        number: number_of(&wish, &carried.outcome),
        sink: carried.sink,
        told,
    }
}

// Tells how a request ended that was carried out for these words.
fn tell_end<E: Sink>(
    alloc: Global,
    wish: &Wish<'_>,
    words: &Words,
    file: Option<Wanted<'_>>,
    outcome: &Outcome<'_, Why>,
    said: End,
    err: &mut E,
) -> Telling
    ensures { IsShortEnd outcome.now
        → TellsEnd (codes "rblview") (wrong_in (request_of (task_of wish.now)).command (view_wrong words.now (view_of words.now)))
        (option_map wanted_of file.entry) outcome.now (E.written err.old) (E.written err.new) (E.faults err.old) (E.faults err.new) result }
{
    match outcome {
        Outcome::Done => tell_done(alloc, wish, words, err),
        _ => tell(alloc, "rblview", file, outcome, said, err),
    }
}

// Tells what was wrong with words that are shown the commands.
fn tell_done<E: Sink>(alloc: Global, wish: &Wish<'_>, words: &Words, err: &mut E) -> Telling
    ensures { TellsDone (wrong_in (request_of (task_of wish.now)).command (view_wrong words.now (view_of words.now)))
        (E.written err.old) (E.written err.new) (E.faults err.old) (E.faults err.new) result }
{
    match wish {
        Wish::Usage(_) => put_told(view_wrong(alloc, words), err),
        _ => Telling::Nothing,
    }
}

// The file that an end is about.
fn file_in<'r>(wish: &'r Wish<'_>, outcome: &Outcome<'_, Why>) -> Option<Wanted<'r>>
    ensures { option_map wanted_of result ≡ file_of (request_of (task_of wish.now)) outcome.now }
{
    match outcome {
        Outcome::Refused(refusal) => wish.file(refusal.number),
        Outcome::ReadFault(number) => wish.file(*number),
        Outcome::Done | Outcome::WriteFault | Outcome::Memory => None,
    }
}

// The exit status of an end.
fn number_of(wish: &Wish<'_>, outcome: &Outcome<'_, Why>) -> u8
    ensures { result ≡ exit_status (request_of (task_of wish.now)).command outcome.now }
{
    match outcome {
        Outcome::Done if matches!(wish, Wish::Usage(_)) => 2,
        Outcome::Done => 0,
        Outcome::Refused(_) => 1,
        Outcome::ReadFault(_) => 3,
        Outcome::WriteFault => 4,
        Outcome::Memory => NO_MEMORY,
    }
}
