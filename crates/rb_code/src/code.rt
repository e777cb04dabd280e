//! The code of a program: what `rbl code` lists and the machine executes.

ghost use Rattle.std.specs.Prelude.{◌≡◌};

use crate::instr::Instr;
use rb_base::{Edition, Names, Text};

/// The code of a program. Addresses are places in the list of instructions, from 0.
pub struct Code {
    pub edition: Edition,
    pub instrs: Vec<Instr>,
    pub processes: Vec<ProcessCode>,
    pub blocks: Vec<BlockCode>,
    pub channels: Vec<ChannelCode>,
    pub texts: Vec<Text>,
    pub names: Names,
}

impl Drop for Code {
    fn drop(self) {
        let Code {
            edition: _,
            instrs: _,
            processes: _,
            blocks: _,
            channels: _,
            texts: _,
            names: _,
        } = self;
    }
}

impl Code {
    /// The names alone; the rest is let go.
    pub fn into_names(self) -> Names
        ensures { result ≡ self.names }
    {
        let Code {
            edition: _,
            instrs: _,
            processes: _,
            blocks: _,
            channels: _,
            texts: _,
            names,
        } = self;
        names
    }
}

/// A process: the address of its body, how many words its variables have, the channels of which it is an end, in order, and its
/// procedures.
pub struct ProcessCode {
    pub start: u32,
    pub words: u32,
    pub channels: Vec<u32>,
    pub procedures: Vec<ProcedureCode>,
}

impl Drop for ProcessCode {
    fn drop(self) {
        let ProcessCode {
            start: _,
            words: _,
            channels: _,
            procedures: _,
        } = self;
    }
}

/// A procedure: its name and its first address.
pub struct ProcedureCode {
    pub name: Text,
    pub start: u32,
}

impl Drop for ProcedureCode {
    fn drop(self) {
        let ProcedureCode { name: _, start: _ } = self;
    }
}

/// A recovery block: the line of its word `ensure`, its conversation if it has one, its turn bound, and the addresses of the `turn`
/// before its `start`, of the `turn` before its acceptance test, and of its alternates in order.
pub struct BlockCode {
    pub line: u32,
    pub conversation: Option<u32>,
    pub bound: u32,
    pub restart: u32,
    pub test: u32,
    pub alternates: Vec<u32>,
}

impl Drop for BlockCode {
    fn drop(self) {
        let BlockCode {
            line: _,
            conversation: _,
            bound: _,
            restart: _,
            test: _,
            alternates: _,
        } = self;
    }
}

/// A channel: the numbers of its sender and its receiver, and its size.
#[derive(Clone, Copy)]
pub struct ChannelCode {
    pub sender: u32,
    pub receiver: u32,
    pub size: u32,
}
