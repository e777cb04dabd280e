//! The words of a process as callers ask for them: those of its variables, and the cursors of its channels.

ghost use Rattle.std.specs.Prelude.{◌≡◌, ◌+◌, ◌<◌, ◌≤◌, length, slice_get, Some};
ghost use Rattle.rb_code.specs.Instructions.Plain.{code as plain};
ghost use Rattle.rb_code.specs.WordMachine.WordKind.{cursor_in};
ghost use Rattle.rb_code.specs.WordMachine.WordRun.{variable_words};
ghost use Rattle.rb_recoverable.specs.Views.{CursorThen};

use super::Proc;
use crate::channels::{cursor_place, first_variable};
use crate::wants::cursor_of;
use rb_base::Steps;
use rb_code::Code;
use rb_recoverable::recoverable::natural;
use std::sync::ledger::Ledger;

impl<L: Ledger> Proc<L> {
    /// The cursor of a channel.
    pub fn cursor(&self, code: &Code, channel: u32, steps: &mut Steps<L>) -> u64
        requires { self.now.process.state.process < length code.now.processes.items }
        ensures cursor { result ≡ cursor_in (plain code.now) self.now.process.state.process self.now.process.state.words channel }
        ensures ticks { steps.new ≤ steps.old + 1 }
        ensures rise { steps.old ≤ steps.new }
    {
        cursor_of(code, self.process, channel, &self.memory, steps)
    }

    /// The cursor of a channel as it was at the entry of an open level; levels count from 0, the outermost.
    pub fn cursor_then(&self, code: &Code, channel: u32, level: u32, steps: &mut Steps<L>) -> u64
        requires process { self.now.process.state.process < length code.now.processes.items }
        requires level { level < length self.now.process.levels }
        ensures cursor { CursorThen (plain code.now) self.now.process.state.process channel (slice_get self.now.process.levels level) result }
        ensures ticks { steps.new ≤ steps.old + 1 }
    {
        let place = cursor_place(code, self.process, channel);
        natural(self.memory.at_entry(level, place, steps))
    }

    /// A word of its variables, by its place among them.
    pub fn word(&self, code: &Code, at: u32, steps: &mut Steps<L>) -> i64
        requires process { self.now.process.state.process < length code.now.processes.items }
        requires at { at < length (variable_words (plain code.now) self.now.process.state) }
        ensures word { slice_get (variable_words (plain code.now) self.now.process.state) at ≡ Some result }
        ensures ticks { steps.new ≤ steps.old + 1 }
        ensures rise { steps.old ≤ steps.new }
    {
        let first = first_variable(code, self.process);
        self.memory.load(first + at as usize, steps)
    }
}
