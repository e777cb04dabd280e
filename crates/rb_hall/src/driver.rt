//! The driver of all commands.
ghost use Rattle.std.specs.Prelude.{◌≡◌, ◌≤◌, ◌-◌, ℕ, List, [], ◌∷◌, ◌++◌, length, slice_get, Some, IfOk, IfErr, OnOk};
ghost use Rattle.rb_hall.specs.Judgement.{Limited, Wants};
ghost use Rattle.rb_hall.specs.Answers.{Answers, ReadAll, StopsReading, scene_of};
ghost use Rattle.rb_hall.specs.Complete.{IsComplete};
ghost use Rattle.rb_hall.specs.Ends.{EndsAfter, IsRefused, JudgesText};

use crate::command::{Command, Stop, Unwritten, Written};
use crate::fault::Fault;
use crate::outcome::{Carried, Outcome, Refusal};
use crate::read::{Unread, read_file};
use rb_outside::{Shelf, Sink};
use std::alloc::Global;

/// Why not all texts of a command were judged.
#[derive(Drop)]
pub enum Halted<'s, W: Drop> {
    Refused(Refusal<'s, W>),
    ReadFault(usize),
    Memory,
}

/// Why a text was not judged, or refused: for a fault, with what is known of it, which is nothing of a text that is too long.
#[derive(Drop)]
pub enum Unjudged<W: Drop> {
    Refused(Fault, Option<W>),
    Memory,
}

/// What was gathered of all texts: what the command holds of them, and of the last its number and its bytes.
#[derive(Drop)]
pub struct Gathered<'s, H: Drop> {
    held: H,
    number: usize,
    text: &'s [u8],
}

/// Carries out a command: reads and judges its files in their order, stops at the first that is refused, and writes the line of the refusal, or
/// the text of the command. The texts stay in the slots, of which there are as many as files.
pub fn drive<'s, C: Command<'s>, F: Shelf, S: Sink + Drop>(
    alloc: Global,
    command: &C,
    slots: &'s mut [Vec<u8>],
    shelf: &mut F,
    out: S,
) -> Carried<'s, S, C::Why>
    requires { length (C.wanted command.now) ≤ length slots.old }
    ensures files { F.files shelf.new ≡ F.files shelf.old }
    ensures untouched { C.wanted command.now ≡ [] → shelf.new ≡ shelf.old }
    ensures answers { Answers (Limited (C.judges command.now) (C.wanted command.now)) (C.explains command.now) (C.wanted command.now) (C.takes command.now)
        (scene_of F.files F.starts F.faults S.written S.faults shelf.old out)
        (scene_of F.files F.starts F.faults S.written S.faults shelf.new result.sink)
        result.outcome }
    ensures complete { IsComplete (Limited (C.judges command.now) (C.wanted command.now)) (C.wanted command.now)
        (scene_of F.files F.starts F.faults S.written S.faults shelf.old out)
        (scene_of F.files F.starts F.faults S.written S.faults shelf.new result.sink)
        result.outcome }
{
    carry(alloc, command, slots, shelf, out)
}

// The same, each answer with its cause.
fn carry<'s, C: Command<'s>, F: Shelf, S: Sink + Drop>(
    alloc: Global,
    command: &C,
    slots: &'s mut [Vec<u8>],
    shelf: &mut F,
    out: S,
) -> Carried<'s, S, C::Why>
    requires { length (C.wanted command.now) ≤ length slots.old }
    ensures files { F.files shelf.new ≡ F.files shelf.old }
    ensures untouched { C.wanted command.now ≡ [] → shelf.new ≡ shelf.old }
    ensures answers { Answers (Limited (C.judges command.now) (C.wanted command.now)) (C.explains command.now) (C.wanted command.now) (C.takes command.now)
        (scene_of F.files F.starts F.faults S.written S.faults shelf.old out)
        (scene_of F.files F.starts F.faults S.written S.faults shelf.new result.sink)
        result.outcome }
{
    match gather(alloc, command, slots, shelf) {
        Ok(Gathered { held, number, text }) => {
            after_writing(command.write(alloc, held, out), number, text)
        }
        Err(Halted::Refused(refusal)) => refuse(refusal, out),
        Err(Halted::ReadFault(number)) => Carried {
            sink: out,
            outcome: Outcome::ReadFault(number),
        },
        Err(Halted::Memory) => Carried {
            sink: out,
            outcome: Outcome::Memory,
        },
    }
}

// How the call ends after a command wrote; of a refusal the line is still to be written, of the last text, which has this number.
fn after_writing<'s, S: Sink + Drop, W: Drop>(
    written: Written<S, W>,
    number: usize,
    text: &'s [u8],
) -> Carried<'s, S, W>
    ensures { EndsAfter written.ended number text.now (S.written written.sink) (S.written result.sink) (S.faults written.sink) (S.faults result.sink)
        result.outcome }
{
    let Written { sink, ended } = written;
    match ended {
        Ok(()) => Carried {
            sink,
            outcome: Outcome::Done,
        },
        Err(Unwritten::Refused(fault, why)) => refuse(
            Refusal {
                fault,
                number,
                text,
                why: Some(why),
            },
            sink,
        ),
        Err(Unwritten::Fault) => Carried {
            sink,
            outcome: Outcome::WriteFault,
        },
        Err(Unwritten::Memory) => Carried {
            sink,
            outcome: Outcome::Memory,
        },
    }
}

// Writes the line of a refusal.
fn refuse<'s, W: Drop, S: Sink + Drop>(refusal: Refusal<'s, W>, out: S) -> Carried<'s, S, W>
    ensures { IsRefused refusal.entry (S.written out) (S.written result.sink) (S.faults out) (S.faults result.sink) result.outcome }
{
    let mut sink = out;
    let put = refusal.fault.put_line(&mut sink);
    Carried {
        sink,
        outcome: match put {
            Ok(()) => Outcome::Refused(refusal),
            Err(_) => Outcome::WriteFault,
        },
    }
}

// Reads and judges the texts of all files.
fn gather<'s, C: Command<'s>, F: Shelf>(
    alloc: Global,
    command: &C,
    slots: &'s mut [Vec<u8>],
    shelf: &mut F,
) -> Result<Gathered<'s, C::Held>, Halted<'s, C::Why>>
    requires { length (C.wanted command.now) ≤ length slots.old }
    ensures files { F.files shelf.new ≡ F.files shelf.old }
    ensures untouched { C.wanted command.now ≡ [] → shelf.new ≡ shelf.old }
    ensures all { IfOk result (λ all. ReadAll (F.files shelf.old) (C.judges command.now) (C.wanted command.now) (C.holds command.now)
        (F.starts shelf.old) (F.starts shelf.new) all.held all.number all.text.now) }
    ensures quiet { OnOk result ((F.faults shelf.new).count ≡ (F.faults shelf.old).count) }
    ensures stopped { IfErr result (StopsReading (F.files shelf.old) (Limited (C.judges command.now) (C.wanted command.now)) (C.explains command.now) (C.wanted command.now)
        (F.starts shelf.old) (F.starts shelf.new) (F.faults shelf.old) (F.faults shelf.new)) }
{
    let Ok(begun) = command.begin(alloc) else {
        return Err(Halted::Memory);
    };
    let mut held = begun;
    let mut number = 0;
    let mut last: &'s [u8] = &[];
    for slot in slots.iter_mut() {
        let Some(file) = command.file(number) else {
            return Ok(after_texts(held, number, last));
        };
        match read_file(alloc, shelf, file.name, file.most) {
            Ok(bytes) => *slot = bytes,
            Err(Unread::Fault) => return Err(Halted::ReadFault(number)),
            Err(Unread::Memory) => return Err(Halted::Memory),
        }
        let text = slot.as_slice();
        match judge(alloc, command, held, file.most, text) {
            Ok(next) => held = next,
            Err(Unjudged::Refused(fault, why)) => return Err(Halted::Refused(Refusal {
                fault,
                number,
                text,
                why,
            })),
            Err(Unjudged::Memory) => return Err(Halted::Memory),
        }
        number += 1;
        last = text;
    }
    Ok(after_texts(held, number, last))
}

// What was gathered after so many texts.
fn after_texts<'s, H: Drop>(held: H, count: usize, text: &'s [u8]) -> Gathered<'s, H>
    ensures held { result.held ≡ held }
    ensures number { result.number ≡ count - 1 }
    ensures text { result.text.now ≡ text.now }
{
    Gathered {
        held,
        number: count.saturating_sub(1),
        text,
    }
}

// Judges a text by what was read of it.
fn judge<'s, C: Command<'s>>(
    alloc: Global,
    command: &C,
    held: C::Held,
    most: usize,
    text: &'s [u8],
) -> Result<C::Held, Unjudged<C::Why>>
    requires { (texts : List (List ℕ)) × (file : Wants) × (slice_get (C.wanted command.now) (length texts) ≡ Some file) × (file.most ≡ most)
        × C.holds command.now texts held }
    ensures { JudgesText (C.judges command.now) (C.explains command.now) (C.wanted command.now) (C.holds command.now) held most text.now result }
{
    if text.len() > most {
        return Err(Unjudged::Refused(Fault::Long, None));
    }
    match command.take(alloc, held, text) {
        Ok(next) => Ok(next),
        Err(Stop::Refused(fault, why)) => Err(Unjudged::Refused(fault, Some(why))),
        Err(Stop::Memory) => Err(Unjudged::Memory),
    }
}
