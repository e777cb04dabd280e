//! What a turn sees beside what it changes, and where its words lie.

ghost use Rattle.std.specs.Prelude.{◌≡◌, ◌+◌, ◌<◌, ◌≤◌, ◌^◌, length};
ghost use Rattle.rb_code.specs.WordMachine.Act.{place};
ghost use Rattle.rb_code.specs.Instructions.Plain.{code as plain};
ghost use Rattle.rb_base.specs.Limits.{most_words};
ghost use Rattle.rb_code.specs.WordMachine.Workspace.{base_of, body_place, part_of, variables_place};
ghost use Rattle.rb_recoverable.specs.Places.{most_places};
ghost use Rattle.rb_proc.specs.Sees.{IsTurnOf, see_of};

use crate::answers::Wanted;
use rb_code::{Code, Spot};
use rb_recoverable::recoverable::Recoverable;
use std::sync::ledger::Ledger;

/// What a turn sees: its process, where the variables begin, the message that is there if one is, and what the process wants, by which the
/// alternate is known that is to be started.
#[derive(Clone, Copy)]
pub struct Sight {
    pub process: u32,
    pub variables: usize,
    pub message: Option<i64>,
    pub wanted: Wanted,
}

impl Sight {
    /// What a turn of a process sees, with this message, where it wants this.
    pub fn new(code: &Code, process: u32, message: Option<i64>, wanted: Wanted) -> Self
        requires process { process < length code.now.processes.items }
        requires places { variables_place (part_of (plain code.now) process) + most_words code.now.edition ≤ most_places }
        requires words { (part_of (plain code.now) process).words ≤ most_words code.now.edition }
        ensures turn { IsTurnOf (plain code.now) result }
        ensures process { result.process ≡ process }
        ensures message { result.message ≡ message }
        ensures wanted { result.wanted ≡ wanted }
    {
        Sight {
            process,
            variables: 1 + code.processes[process as usize].channels.len(),
            message,
            wanted,
        }
    }

    /// How many words there may be.
    pub fn most(&self, code: &Code) -> u32
        requires { IsTurnOf (plain code.now) self.now }
        ensures most { result ≡ variables_place (part_of (plain code.now) self.now.process) + most_words code.now.edition }
        ensures few { result ≤ most_places }
    {
        self.variables as u32 + code.edition.most_words()
    }

    /// Where the words of the main body begin.
    pub fn body(&self, code: &Code) -> u32
        requires { IsTurnOf (plain code.now) self.now }
        ensures { result ≡ body_place (part_of (plain code.now) self.now.process) }
    {
        self.variables as u32 + code.processes[self.process as usize].words
    }

    /// Where a variable's first word lies.
    pub fn place<L: Ledger>(&self, code: &Code, memory: &Recoverable<L>, spot: Spot) -> usize
        requires { IsTurnOf (plain code.now) self.now }
        ensures place { result ≡ place (plain code.now) (see_of self.now memory.now.levels) memory.now.calls spot }
        ensures some { 0 < result }
        ensures small { result < 2 ^ 33 }
    {
        match spot {
            Spot::Global(k) => self.variables + k as usize,
            Spot::Local(k) => self.base(code, memory) as usize + k as usize,
        }
    }

    // Where the words of the running call begin, or those of the main body, which are looked up only then.
    fn base<L: Ledger>(&self, code: &Code, memory: &Recoverable<L>) -> u32
        requires { IsTurnOf (plain code.now) self.now }
        ensures base { result ≡ base_of (part_of (plain code.now) self.now.process) memory.now.calls }
        ensures some { 0 < result }
    {
        match memory.call_base() {
            None => self.body(code),
            Some(base) => base,
        }
    }
}
