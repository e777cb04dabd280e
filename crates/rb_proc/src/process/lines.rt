//! The held lines of a process, and the released ones that wait.

ghost use Rattle.std.specs.Prelude.{◌≡◌, ◌+◌, ◌<◌, ◌≤◌, false, true, [], length, drop, slice_get, option_copied};
ghost use Rattle.std.specs.Borrow.{sem};
ghost use Rattle.std.specs.Io.BufRead.{Rests};
ghost use Rattle.rb_base.specs.declared.limits.TheConstants.{MOST_HELD_BYTES};
ghost use Rattle.rb_world.specs.Turn.{freed, lines_freed};
ghost use Rattle.rb_world.specs.World.{Running};
ghost use Rattle.rb_code.specs.Instructions.Plain.{Code as Plain};
ghost use Rattle.rb_proc.specs.Process.{kind_of};

use super::Proc;
use crate::answers::ProcessStatus;
use rb_base::Steps;
use std::sync::ledger::Ledger;

impl<L: Ledger> Proc<L> {
    ghost use Rattle.rb_proc.specs.contracts.process.Proc.{the_row};

    /// Its held lines are released if no level is open. Where one is, or no line is held, nothing is touched.
    #[inline(always)]
    pub fn release_if_free(&mut self, steps: &mut Steps<L>)
        requires none_waits { self.old.waiting ≡ [] }
        ensures freed { (c : Plain)
            → self.new ≡ record {
              process = freed (kind_of c) self.old.process;
              waiting =
                  lines_freed (kind_of c) self.old.process.state self.old.process.levels;
            } }
        ensures ticks { steps.new ≤ steps.old + 2 }
        ensures quiet { self.old.process.state.held ≡ [] → steps.new ≡ steps.old }
        ensures within { 0 < length self.old.process.levels → steps.new ≡ steps.old }
    {
        self.memory.release_if_free(steps);
    }

    /// Whether a release would tell lines: some are held, and no level is open.
    #[inline(always)]
    pub fn may_release(&self) -> bool
        ensures { (c : Plain) → result ≡ false → lines_freed (kind_of c) self.now.process.state self.now.process.levels ≡ [] }
    {
        self.memory.may_release()
    }

    /// Whether it goes on, and no held line of it is to be released: then a release changes nothing.
    #[inline(always)]
    pub fn is_quiet(&self) -> bool
        ensures running { result ≡ true → self.now.process.status ≡ Running }
        ensures same { (c : Plain)
            → result ≡ true
            → record {
              process = freed (kind_of c) self.now.process;
              waiting =
                  lines_freed (kind_of c) self.now.process.state self.now.process.levels;
            }
            ≡ record self.now { waiting = [] } }
    {
        match self.status {
            ProcessStatus::Running => !self.memory.may_release(),
            ProcessStatus::Finished | ProcessStatus::Failed(_) => false,
        }
    }

    /// Lends the first released line that waits, which no longer does then; `None` exactly where none waits.
    pub fn released(&mut self) -> Option<&[u8]>
        ensures lent { option_copied result ≡ slice_get self.old.waiting 0 }
        ensures* after { sem 𝓛 (Rests (the_row L.row L.Ledger) self.entry (λ new. new ≡ record self.old { waiting = drop 1 self.old.waiting })) }
    {
        self.memory.released()
    }

    /// Forgets the released lines that wait, and answers how many they were.
    pub fn drop_released(&mut self) -> u32
        ensures count { result ≡ length self.old.waiting }
        ensures few { result ≤ MOST_HELD_BYTES }
        ensures none { self.new ≡ record self.old { waiting = [] } }
    {
        self.memory.drop_released()
    }
}
