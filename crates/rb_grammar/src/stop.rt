//! Why reading stops.
use rb_base::SourceFault;
use std::alloc::AllocFailed;

/// Why the reading of a part stopped.
#[derive(Clone, Copy)]
pub enum Stop {
    /// The last token was taken, and this fault follows: the next token's own, or that of a bracket too many.
    Token(SourceFault),
    /// What stands first is no part of any form that was begun.
    Form,
    Memory,
}

impl<T: Drop> From<AllocFailed<T>> for Stop {
    ghost use Rattle.std.specs.Prelude.{◌≡◌};
    ghost use Rattle.rb_grammar.specs.declared.stop.Stop.TheVariants.{Memory};

    ghost from_gives = { λ _ stop. stop ≡ Memory };

    fn from(_error: AllocFailed<T>) -> Self {
        Stop::Memory
    }
}
