//! The step of a statement that stands first, for each form of statement.

ghost use Rattle.rb_syntax.specs.Plain.{command, otherwise, reference, tree};
ghost use Rattle.rb_meaning.specs.Environment.{rest_of};
ghost use Rattle.rb_meaning.specs.Groups.{channel_number};
ghost use Rattle.rb_meaning.specs.State.{Perform};
ghost use Rattle.rb_meaning.specs.Step.{performs, receives};
ghost use Rattle.rb_walk.specs.Comes.{Comes};
ghost use Rattle.rb_walk.specs.Items.{StandsFirst};
ghost use Rattle.rb_walk.specs.States.{state_of};

use crate::halt::Halt;
use crate::state::State;
use rb_meaning::numbers::channel_number;
use rb_syntax::{Block, Name, Program, Statement, Target};
use std::alloc::Global;

impl<'t, 'a> State<'t, 'a> {
    /// The step of a statement that stands first, with the message that it takes, if it takes one.
    pub fn perform(
        &mut self,
        alloc: Global,
        program: &'t Program<'a>,
        message: Option<i64>,
        statement: &'t Statement<'a>,
    ) -> Result<(), Halt>
        requires { StandsFirst (Perform (command statement.now)) (state_of self.old).items }
        ensures { Comes
            (performs (tree program.now) message (state_of self.old) (rest_of (state_of self.old).items) (command statement.now))
            (state_of self.new) result }
    {
        match statement {
            Statement::Assign(to, value) => {
                self.skip();
                self.assign(to, value)
            }
            Statement::Print(items) => {
                self.skip();
                self.print(alloc, items)
            }
            Statement::Send(channel, value) => {
                self.skip();
                self.send(channel_number(program, channel.text), value)
            }
            Statement::Receive(channel, to, other) => {
                self.skip();
                self.receive(alloc, program, message, channel, to, other)
            }
            Statement::If(test, block, other) => {
                self.skip();
                self.choose(alloc, program.edition, test, block, other)
            }
            Statement::While(test, block) => self.repeat(alloc, program.edition, test, block),
            Statement::Call(procedure, arguments) => {
                self.skip();
                self.invoke(alloc, program, procedure, arguments)
            }
            Statement::Fail => Err(Halt::Stuck),
            Statement::Recover(_) => {
                self.skip();
                Ok(())
            }
        }
    }

    // A receipt takes the message that is there, and else begins its `else`.
    fn receive(
        &mut self,
        alloc: Global,
        program: &'t Program<'a>,
        message: Option<i64>,
        channel: &Name<'a>,
        to: &Target<'a>,
        other: &'t Option<Block<'a>>,
    ) -> Result<(), Halt>
        ensures { Comes (receives (tree program.now) (channel_number (tree program.now) channel.now.text.now) (reference to.now) (otherwise other.now)
            (state_of self.old).items (state_of self.old) message) (state_of self.new) result }
    {
        match message {
            Some(value) => self.take(channel_number(program, channel.text), to, value),
            None => self.push_else(alloc, program.edition, other),
        }
    }
}
