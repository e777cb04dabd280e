//! Why a plain run wrote no whole text.

ghost use Rattle.rb_meaning.specs.PlainRun.{PlainWorld};
ghost use Rattle.std.specs.Prelude.{Option};
ghost use Rattle.rb_levels.specs.Taken.{TakesTurn};
ghost use Rattle.rb_levels.specs.Worlds.{MovesTo};

use rb_outside::Failed;
use rb_walk::Halt;

/// Why a plain run wrote no whole text.
#[derive(Clone, Copy)]
pub enum PlainAnswer {
    /// The turn of this number could not be taken.
    Stuck(u32),
    /// A write failed.
    WriteFault,
    /// Memory was wanting.
    Memory,
}

impl From<rb_base::Memory> for PlainAnswer {
    ghost use Rattle.std.specs.Prelude.{◌≡◌};
    ghost use Rattle.rb_levels.specs.declared.answer.PlainAnswer.TheVariants.{Memory};

    ghost from_gives = { λ _ answer. answer ≡ Memory };

    fn from(_memory: rb_base::Memory) -> Self {
        PlainAnswer::Memory
    }
}

impl From<Failed> for PlainAnswer {
    ghost use Rattle.std.specs.Prelude.{◌≡◌};
    ghost use Rattle.rb_levels.specs.declared.answer.PlainAnswer.TheVariants.{WriteFault};

    ghost from_gives = { λ _ answer. answer ≡ WriteFault };

    fn from(_failed: Failed) -> Self {
        PlainAnswer::WriteFault
    }
}

impl PlainAnswer {
    /// What is answered of a kept turn of this number, by what came of it: where it is stuck, its number.
    pub fn of_turn(taken: Result<(), Halt>, turn: u32) -> Result<(), PlainAnswer>
        ensures { (moved : Option PlainWorld) (new : PlainWorld) → MovesTo moved new taken → TakesTurn turn moved new result }
    {
        match taken {
            Ok(()) => Ok(()),
            Err(Halt::Stuck) => Err(PlainAnswer::Stuck(turn)),
            Err(Halt::Memory) => Err(PlainAnswer::Memory),
        }
    }
}
