//! Why a plain run goes no further.

use std::alloc::{AllocError, AllocFailed};

/// A kept turn could not be taken: a trap, a wait, a test that does not hold, or an alternate that does not fit; or memory was short.
#[derive(Clone, Copy)]
pub enum Halt {
    Stuck,
    Memory,
}

impl From<rb_base::Memory> for Halt {
    ghost use Rattle.std.specs.Prelude.{◌≡◌};
    ghost use Rattle.rb_walk.specs.declared.halt.Halt.TheVariants.{Memory};

    ghost from_gives = { λ _ halt. halt ≡ Memory };

    fn from(_memory: rb_base::Memory) -> Self {
        Halt::Memory
    }
}

impl From<AllocError> for Halt {
    ghost use Rattle.std.specs.Prelude.{◌≡◌};
    ghost use Rattle.rb_walk.specs.declared.halt.Halt.TheVariants.{Memory};

    ghost from_gives = { λ _ halt. halt ≡ Memory };

    fn from(_error: AllocError) -> Self {
        Halt::Memory
    }
}

impl<T: Drop> From<AllocFailed<T>> for Halt {
    ghost use Rattle.std.specs.Prelude.{◌≡◌};
    ghost use Rattle.rb_walk.specs.declared.halt.Halt.TheVariants.{Memory};

    ghost from_gives = { λ _ halt. halt ≡ Memory };

    fn from(_error: AllocFailed<T>) -> Self {
        Halt::Memory
    }
}
