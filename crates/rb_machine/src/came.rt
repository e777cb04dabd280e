//! What a turn came to before lines are released.

ghost use Rattle.std.specs.Prelude.{◌≡◌, true, false, None};
ghost use Rattle.rb_recovery.specs.TestLines.{passes_of};
ghost use Rattle.rb_machine.specs.Telling.{is_alone};

use rb_base::{Event, TurnKind};

/// The kind of a turn, the event of a test line that was passed in it, and whether it is known to end quietly: its process ran before it and
/// goes on, and there is nothing to tell or to release.
#[derive(Clone, Copy)]
pub struct Came {
    pub kind: TurnKind,
    pub pass: Option<Event>,
    pub quiet: bool,
}

impl Came {
    /// A turn of this kind in which no test line was passed, and of which no more is known.
    #[inline(always)]
    pub fn without_pass(kind: TurnKind) -> Self
        ensures kind { result.kind ≡ kind }
        ensures pass { result.pass ≡ None }
        ensures quiet { result.quiet ≡ false }
    {
        Came {
            kind,
            pass: None,
            quiet: false,
        }
    }

    /// A turn of this kind after which the process goes on, and there is nothing to tell or to release.
    #[inline(always)]
    pub fn quietly(kind: TurnKind) -> Self
        ensures kind { result.kind ≡ kind }
        ensures pass { result.pass ≡ None }
        ensures quiet { result.quiet ≡ true }
    {
        Came {
            kind,
            pass: None,
            quiet: true,
        }
    }

    /// Whether the turn touched no process but its own: it took back nothing, and no test line was passed.
    #[inline(always)]
    pub fn is_alone(&self) -> bool
        ensures { result ≡ is_alone self.now.kind (passes_of self.now.pass) }
    {
        match (self.kind, self.pass) {
            (TurnKind::Idle | TurnKind::Wait | TurnKind::Took, None) => true,
            (TurnKind::Undone, None) | (_, Some(_)) => false,
        }
    }
}
