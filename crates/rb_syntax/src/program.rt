//! Programs of the tree, with their channels, conversations, processes and procedures.

use crate::expression::{Name, Number};
use crate::statement::{Block, Statement, Var};
use rb_base::Edition;

/// A whole program: `names` is the number of names in the text, `blocks` that of its recoveries.
pub struct Program<'a> {
    pub name: Name<'a>,
    pub channels: Vec<Channel<'a>>,
    pub conversations: Vec<Conversation<'a>>,
    pub processes: Vec<Process<'a>>,
    pub names: u32,
    pub blocks: u32,
    pub edition: Edition,
}

impl Drop for Program<'_> {
    fn drop(self) {
        let Program {
            name: _,
            channels: _,
            conversations: _,
            processes: _,
            names: _,
            blocks: _,
            edition: _,
        } = self;
    }
}

/// A channel from one process to another, with room for `size` values.
#[derive(Clone, Copy)]
pub struct Channel<'a> {
    pub name: Name<'a>,
    pub sender: Name<'a>,
    pub receiver: Name<'a>,
    pub size: Number,
}

/// A conversation and its members.
pub struct Conversation<'a> {
    pub name: Name<'a>,
    pub members: Vec<Name<'a>>,
}

impl Drop for Conversation<'_> {
    fn drop(self) {
        let Conversation {
            name: _,
            members: _,
        } = self;
    }
}

/// A process.
pub struct Process<'a> {
    pub name: Name<'a>,
    pub vars: Vec<Var<'a>>,
    pub procedures: Vec<Procedure<'a>>,
    pub body: Vec<Statement<'a>>,
}

impl Drop for Process<'_> {
    fn drop(self) {
        let Process {
            name: _,
            vars: _,
            procedures: _,
            body: _,
        } = self;
    }
}

/// A procedure of a process.
pub struct Procedure<'a> {
    pub name: Name<'a>,
    pub params: Vec<Name<'a>>,
    pub block: Block<'a>,
}

impl Drop for Procedure<'_> {
    fn drop(self) {
        let Procedure {
            name: _,
            params: _,
            block: _,
        } = self;
    }
}
