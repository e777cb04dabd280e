//! What standard error is told of the end of a command. Where standard error fails too, the exit status alone tells it.
ghost use Rattle.std.specs.Prelude.{◌≡◌, ◌++◌, ℕ, List, codes, IfOk, OnOk, option_map};
ghost use Rattle.rb_hall.specs.Ends.{wanted_of};
ghost use Rattle.rb_tell.specs.Telling.{IsShortEnd, IsTold, IsUnread, IsUnwritten, PutsTold, Tells};
ghost use Rattle.rb_tell.specs.Reasons.{IsReasonFor, IsShort};

use crate::reason::{is_short, reason_of};
use rb_base::Memory;
use rb_commands::Why;
use rb_hall::{Outcome, Refusal, Wanted};
use rb_outside::{Sink, put_all};
use std::alloc::Global;
use std::io;

/// What the system said of a read and of a write that failed; nothing where none did.
#[derive(Clone, Copy)]
pub struct End {
    pub unread: Option<io::Error>,
    pub unwritten: Option<io::Error>,
}

/// What became of what standard error is told.
#[derive(Clone, Copy)]
pub enum Telling {
    /// There was nothing to tell.
    Nothing,
    /// All of it was written.
    Told,
    /// A write failed, behind a front of it.
    Unheard,
    /// Memory was wanting for it, and nothing was written.
    Memory,
}

/// Tells how a command of a program ended over its files, of which this is the one that the end is about: why a text was refused, which file could
/// not be read, or that nothing could be written; and gives what became of it. Of any other end nothing is told, nor where memory is wanting.
pub fn tell<E: Sink>(
    alloc: Global,
    program: &str,
    file: Option<Wanted<'_>>,
    outcome: &Outcome<'_, Why>,
    said: End,
    err: &mut E,
) -> Telling
    ensures { IsShortEnd outcome.now
        → Tells program.now (option_map wanted_of file.entry) outcome.now (E.written err.old) (E.written err.new)
        (E.faults err.old) (E.faults err.new) result }
{
    match outcome {
        Outcome::Refused(refusal) => match file {
            Some(file) => tell_reason(alloc, file.name, refusal, err),
            None => Telling::Nothing,
        },
        Outcome::ReadFault(_) => match file {
            Some(file) => put_told(unread(alloc, program, file.name, said.unread), err),
            None => Telling::Nothing,
        },
        Outcome::WriteFault => put_told(unwritten(alloc, program, said.unwritten), err),
        Outcome::Done | Outcome::Memory => Telling::Nothing,
    }
}

// Why a text of a file of this name was refused.
fn tell_reason<E: Sink>(
    alloc: Global,
    file: &str,
    refusal: &Refusal<'_, Why>,
    err: &mut E,
) -> Telling
    ensures { IsShort refusal.now.fault refusal.now.text.now
        → IsTold (IsReasonFor file.now refusal.now) (E.written err.old) (E.written err.new) (E.faults err.old) (E.faults err.new) result }
{
    if !is_short(refusal) {
        return Telling::Nothing;
    }
    put_told(reason_of(alloc, file.as_bytes(), refusal), err)
}

/// Puts a text, if memory was there for it.
pub fn put_told<E: Sink>(told: Result<Vec<u8>, Memory>, err: &mut E) -> Telling
    ensures { PutsTold told (E.written err.old) (E.written err.new) (E.faults err.old) (E.faults err.new) result }
{
    let Ok(text) = told else {
        return Telling::Memory;
    };
    match put_all(err, text.as_slice()) {
        Ok(()) => Telling::Told,
        Err(_) => Telling::Unheard,
    }
}

// That a file could not be read.
fn unread(
    alloc: Global,
    program: &str,
    name: &str,
    said: Option<io::Error>,
) -> Result<Vec<u8>, Memory>
    ensures { IfOk result (λ told. IsUnread program.now name.now told.items) }
{
    let mut told = Vec::new(alloc);
    told.extend_from_slice(program.as_bytes())?;
    told.extend_from_slice(b": cannot read ")?;
    told.extend_from_slice(name.as_bytes())?;
    add_said(alloc, &mut told, said)?;
    Ok(told)
}

// That nothing could be written.
fn unwritten(alloc: Global, program: &str, said: Option<io::Error>) -> Result<Vec<u8>, Memory>
    ensures { IfOk result (λ told. IsUnwritten program.now told.items) }
{
    let mut told = Vec::new(alloc);
    told.extend_from_slice(program.as_bytes())?;
    told.extend_from_slice(b": cannot write to standard output")?;
    add_said(alloc, &mut told, said)?;
    Ok(told)
}

// What the system said, if it said something, and the end of the line.
fn add_said(alloc: Global, told: &mut Vec<u8>, said: Option<io::Error>) -> Result<(), Memory>
    ensures { OnOk result ((words : List ℕ) × (told.new.items ≡ told.old.items ++ (words ++ codes "\n"))) }
{
    if let Some(error) = said {
        let words = format!(in alloc; ": {error}")?;
        told.extend_from_slice(words.as_bytes())?;
    }
    told.extend_from_slice(b"\n")?;
    Ok(())
}
