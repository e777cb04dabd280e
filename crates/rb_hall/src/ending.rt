//! The end of a program: a buffer before its sink.
ghost use Rattle.std.specs.Prelude.{◌≡◌, ◌≤◌, [], length};
ghost use Rattle.rb_outside.specs.Outside.{went_well};
ghost use Rattle.rb_hall.specs.Judgement.{Limited};
ghost use Rattle.rb_hall.specs.Answers.{scene_of};
ghost use Rattle.rb_hall.specs.Ending.{IsUnwritten, EndsBehind, Finishes, IsPassedOn};

use crate::command::Command;
use crate::driver::drive;
use crate::outcome::{Carried, Outcome};
use rb_outside::{Buffered, Shelf, Sink, buffer_memory};
use std::alloc::Global;

/// Carries out a command, as `drive` does, with a buffer before the sink: what was written reaches the sink in the end, or that is a fault of
/// its own. After a put that failed there is no other. Nothing may have been written to the sink before.
pub fn carry_out<'s, C: Command<'s>, F: Shelf, S: Sink + Drop>(
    alloc: Global,
    command: &C,
    slots: &'s mut [Vec<u8>],
    shelf: &mut F,
    out: S,
) -> Carried<'s, S, C::Why>
    requires unwritten { IsUnwritten (S.written out) }
    requires slots { length (C.wanted command.now) ≤ length slots.old }
    ensures files { F.files shelf.new ≡ F.files shelf.old }
    ensures untouched { C.wanted command.now ≡ [] → shelf.new ≡ shelf.old }
    ensures ends { EndsBehind (Limited (C.judges command.now) (C.wanted command.now)) (C.explains command.now) (C.wanted command.now) (C.takes command.now)
        (scene_of F.files F.starts F.faults S.written (λ sink. went_well (S.faults sink)) shelf.old out)
        (scene_of F.files F.starts F.faults S.written S.faults shelf.new result.sink)
        result.outcome }
{
    let Ok(memory) = buffer_memory(alloc) else {
        return Carried {
            sink: out,
            outcome: Outcome::Memory,
        };
    };
    let carried = drive(alloc, command, slots, shelf, Buffered::over(out, memory));
    let mut buffered = carried.sink;
    let ended = finish(&mut buffered, carried.outcome);
    Carried {
        sink: buffered.into_sink(),
        outcome: ended,
    }
}

/// Passes on what waits, where something was written and no write failed.
pub fn finish<'s, S: Sink, W: Drop>(
    out: &mut Buffered<S>,
    outcome: Outcome<'s, W>,
) -> Outcome<'s, W>
    ensures waits { ⟦<Buffered<S> as Sink>⟧.written out.new ≡ ⟦<Buffered<S> as Sink>⟧.written out.old }
    ensures finishes { Finishes outcome.entry result (⟦<Buffered<S> as Sink>⟧.written out.old) (S.written out.old.sink)
        (S.written out.new.sink) (S.faults out.old.sink) (S.faults out.new.sink) }
{
    match outcome {
        Outcome::Done => passed_on(out, Outcome::Done),
        Outcome::Refused(refusal) => passed_on(out, Outcome::Refused(refusal)),
        Outcome::ReadFault(number) => Outcome::ReadFault(number),
        Outcome::WriteFault => Outcome::WriteFault,
        Outcome::Memory => Outcome::Memory,
    }
}

// Passes on what waits.
fn passed_on<'s, S: Sink, W: Drop>(out: &mut Buffered<S>, outcome: Outcome<'s, W>) -> Outcome<'s, W>
    ensures waits { ⟦<Buffered<S> as Sink>⟧.written out.new ≡ ⟦<Buffered<S> as Sink>⟧.written out.old }
    ensures passed { IsPassedOn outcome.entry result (⟦<Buffered<S> as Sink>⟧.written out.old) (S.written out.new.sink) (S.faults out.old.sink)
        (S.faults out.new.sink) }
{
    match out.flush() {
        Ok(()) => outcome,
        Err(_) => Outcome::WriteFault,
    }
}
