//! Why a turn can't be taken.

ghost use Rattle.std.specs.Prelude.{◌≡◌};
ghost use Rattle.std.specs.Option.{unwrap_or};
ghost use Rattle.rb_base.specs.declared.kept.Kept.{Kept};
ghost use Rattle.rb_syntax.specs.Tree.{Tree};
ghost use Rattle.rb_meaning.specs.PlainRun.{PlainWorld};
ghost use Rattle.rb_meaning.specs.Step.{wants_first};
ghost use Rattle.rb_walk.specs.States.{state_of};
ghost use Rattle.rb_levels.specs.Causes.{cause_of_process, cause_of_want};
ghost use Rattle.rb_levels.specs.Worlds.{process_of, status_of};

use crate::process::Process;

/// Why a kept turn can't be taken.
#[derive(Clone, Copy)]
pub enum StuckCause {
    /// The process has ended.
    Ended,
    /// It stands at its test line, which other members have not reached.
    AtLine,
    /// The turn gives an alternate, and nothing starts here.
    NothingStarts,
    /// A recovery block starts here, and the turn gives none of its alternates, which are so many.
    OtherAlternate(usize),
    /// There is no room on the channel of this number.
    NoRoom(usize),
    /// There is no message on the channel of this number.
    NoMessage(usize),
    /// As many levels are open as may be.
    TooDeep,
    /// The acceptance test does not hold, or traps.
    TestFails,
    /// The statement traps.
    Traps,
}

impl Process<'_, '_> {
    /// Why it can't take a turn, whatever stands first in it; nothing where it runs, away from every test line.
    pub fn standing_cause(&self) -> Option<StuckCause>
        ensures { (tree : Tree) (kept : Kept) (w : PlainWorld) →
            cause_of_process tree kept (process_of self.now) w (status_of self.now.is_done)
            ≡ unwrap_or result (cause_of_want tree kept (process_of self.now) w (wants_first tree (state_of self.now.state).items)) }
    {
        if self.is_done {
            return Some(StuckCause::Ended);
        }
        if self.at_line {
            return Some(StuckCause::AtLine);
        }
        None
    }
}
