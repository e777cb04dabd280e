//! What a kept turn makes of its process alone: a statement, the start of an alternate, and the acceptance test.

ghost use Rattle.std.specs.Prelude.{◌≡◌, [], map};
ghost use Rattle.rb_syntax.specs.Plain.{command, recovery_block, tree};
ghost use Rattle.rb_world.specs.World.{copy_of, last_of, settled, without_last};
ghost use Rattle.rb_world.specs.Turn.{stands_now};
ghost use Rattle.rb_meaning.specs.PlainRun.{environment_at};
ghost use Rattle.rb_meaning.specs.State.{Perform, StartOf};
ghost use Rattle.rb_meaning.specs.Step.{former, test_in};
ghost use Rattle.rb_meaning.specs.Value.{value};
ghost use Rattle.rb_walk.specs.Comes.{Judges};
ghost use Rattle.rb_walk.specs.Items.{StandsFirst};
ghost use Rattle.rb_levels.specs.Moves.{performed_by, skipped, started_by, Becomes, IsReady};
ghost use Rattle.rb_walk.specs.States.{state_of};
ghost use Rattle.rb_levels.specs.Worlds.{level_of, process_of, unkept_kind};

use crate::process::Process;
use rb_base::Kept;
use rb_syntax::{Program, Recovery, Statement};
use rb_walk::Halt;
use std::alloc::Global;

impl<'t, 'a> Process<'t, 'a> {
    /// Performs the statement that stands first, with the message that it takes, if it takes one.
    pub fn perform(
        &mut self,
        alloc: Global,
        program: &'t Program<'a>,
        message: Option<i64>,
        statement: &'t Statement<'a>,
    ) -> Result<(), Halt>
        requires { StandsFirst (Perform (command statement.now)) (state_of self.old.state).items }
        ensures { Becomes (performed_by (tree program.now) message (command statement.now) (process_of self.old)) (process_of self.new) result }
    {
        self.state.perform(alloc, program, message, statement)?;
        self.settle(program);
        Ok(())
    }

    /// Starts the alternate that the record gives, if the innermost recovery block has it.
    pub fn start(
        &mut self,
        alloc: Global,
        program: &'t Program<'a>,
        block: &'t Recovery<'a>,
        kept: Kept,
    ) -> Result<(), Halt>
        requires { StandsFirst (StartOf (recovery_block block.now)) (state_of self.old.state).items }
        ensures { Becomes (started_by (tree program.now) kept (recovery_block block.now) (process_of self.old))
            (process_of self.new) result }
    {
        if !self.has_alternate(kept.alternate) {
            return Err(Halt::Stuck);
        }
        self.state
            .start(alloc, program.edition, block, kept.alternate)?;
        self.settle(program);
        Ok(())
    }

    /// The acceptance test of the recovery block that stands first: it holds, or the run is stuck.
    pub fn judge(&self, block: &Recovery<'a>) -> Result<(), Halt>
        ensures { let s = state_of self.now.state in
            let prior = environment_at (copy_of (last_of (map level_of self.now.levels.items))) in
            Judges (value s.environment (former s.environment prior) [] (test_in (recovery_block block.now))) result }
    {
        self.state.judge(block, self.prior())
    }

    /// The acceptance test of a private level held, and the level goes.
    pub fn pass(&mut self, program: &Program<'a>)
        ensures { process_of self.new
            ≡ settled (unkept_kind (tree program.now)) (skipped (state_of self.old.state)) (without_last (map level_of self.old.levels.items)) }
    {
        self.state.skip();
        self.leave(program);
    }

    /// The acceptance test of a member held, and it stands at the test line.
    pub fn stand(&mut self)
        requires { IsReady self.old }
        ensures { process_of self.new ≡ stands_now (skipped (state_of self.old.state)) (map level_of self.old.levels.items) }
    {
        self.state.skip();
        self.at_line = true;
    }
}
