//! How a command ends.
ghost use Rattle.std.specs.Prelude.{◌≡◌};

use crate::fault::Fault;

/// A text that is refused: for which fault, which of the command's files it is, from 0, and its bytes as they were read; and what the command
/// knows of the fault beside these. Of a text that is too long nothing more is known.
#[derive(Drop)]
pub struct Refusal<'s, W: Drop> {
    pub fault: Fault,
    pub number: usize,
    pub text: &'s [u8],
    pub why: Option<W>,
}

/// How a command ends.
#[derive(Drop)]
pub enum Outcome<'s, W: Drop> {
    Done,
    Refused(Refusal<'s, W>),
    /// The file of this number was not read.
    ReadFault(usize),
    WriteFault,
    Memory,
}

/// The sink that a command wrote to, and how it ended.
#[derive(Drop)]
pub struct Carried<'s, S: Drop, W: Drop> {
    pub sink: S,
    pub outcome: Outcome<'s, W>,
}
