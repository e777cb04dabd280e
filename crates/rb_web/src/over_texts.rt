//! A program over files in memory.

ghost use Rattle.std.specs.Prelude.{◌≡◌, [], Some, IfOk};
ghost use Rattle.rb_outside.specs.Started.{stored_files};
ghost use Rattle.rb_web.specs.Ending.{EndsInMemory, EndsOf, quiet, scene_in};

use crate::room::Room;
use crate::texts::Texts;
use rb_asking::Words;
use rb_base::Memory;
use rb_tell::{Left, Telling};
use std::alloc::Global;

/// One of the two programs.
#[derive(Clone, Copy)]
pub enum Program {
    /// `rbl`
    Rbl,
    /// `rblview`
    Rblview,
}

/// How a program ended: what it wrote and what it told, its exit status, and what became of what it told.
#[derive(Drop)]
pub struct Answer {
    written: Room,
    told: Room,
    number: u8,
    telling: Telling,
}

impl Answer {
    /// The bytes that it wrote.
    pub fn written(&self) -> &[u8]
        ensures { result.now ≡ self.now.written.bytes }
    {
        self.written.bytes()
    }

    /// The bytes that it told: why a text was refused, which file is not there, or that the room was too small.
    pub fn told(&self) -> &[u8]
        ensures { result.now ≡ self.now.told.bytes }
    {
        self.told.bytes()
    }

    /// The exit status.
    pub fn number(&self) -> u8
        ensures { result ≡ self.now.number }
    {
        self.number
    }

    /// What became of what it told.
    pub fn telling(&self) -> Telling
        ensures { result ≡ self.now.telling }
    {
        self.telling
    }
}

/// Carries out what the words ask a program for over these files, each a name and its bytes, of two with one name the first; and keeps the first
/// `room` bytes of what it writes, and the first `reason_room` of what it tells. It fails for want of memory.
pub fn in_memory(
    alloc: Global,
    program: Program,
    words: &Words,
    files: Vec<(Vec<u8>, Vec<u8>)>,
    room: usize,
    reason_room: usize,
) -> Result<Answer, Memory>
    ensures { IfOk result (λ a. EndsInMemory (EndsOf program words.now) (stored_files files.items) room reason_room
        a.written.bytes a.told.bytes a.number a.telling) }
{
    let mut shelf = Texts::new(alloc, files);
    let out = Room::new(alloc, room)?;
    let mut told = Room::new(alloc, reason_room)?;
    let left = carried(alloc, program, words, &mut shelf, out, &mut told);
    // The places that come back are those that were given; since calls over any sink do not say so, it is looked at.
    if left.sink.room() != room || told.room() != reason_room {
        return Err(Memory);
    }
    Ok(Answer {
        written: left.sink,
        told,
        number: left.number,
        telling: left.told,
    })
}

// Carries out what the words ask a program for.
fn carried(
    alloc: Global,
    program: Program,
    words: &Words,
    shelf: &mut Texts,
    out: Room,
    told: &mut Room,
) -> Left<Room>
    requires { out.bytes ≡ [] }
    ensures files { shelf.new.files ≡ shelf.old.files }
    ensures ends { EndsOf program words.now (scene_in shelf.old (quiet out)) (scene_in shelf.new result.sink)
        (Some told.old.bytes) (Some told.new.bytes) told.old.faults told.new.faults result.number result.told }
{
    match program {
        Program::Rbl => rb_tell::hall(alloc, words, shelf, out, told),
        Program::Rblview => rb_show::hall(alloc, words, shelf, out, told),
    }
}
