//! What two entries have in common.

ghost use Rattle.std.specs.Prelude.{◌≡◌, Option};
ghost use Rattle.rb_entries.specs.Join.{met_mode, met_operand, same_mode};
ghost use Rattle.rb_entries.specs.Parts.{mode_of};

use crate::entry::Mode;

/// The bound of an operand that both entries know, if it is the same one.
pub fn meet_operands(a: Option<u32>, b: Option<u32>) -> Option<u32>
    ensures { result ≡ met_operand a b }
{
    match a {
        None => None,
        Some(x) => match b {
            None => None,
            Some(y) => if x == y { Some(x) } else { None },
        },
    }
}

/// How far a turn has come by both entries.
pub fn meet_modes(a: Mode, b: Mode) -> Mode
    ensures { mode_of result ≡ met_mode (mode_of a) (mode_of b) }
{
    if are_same_modes(a, b) {
        a
    } else {
        Mode::Changed
    }
}

/// Whether a turn has come equally far by both.
pub fn are_same_modes(a: Mode, b: Mode) -> bool
    ensures { result ≡ same_mode (mode_of a) (mode_of b) }
{
    match a {
        Mode::Fresh => match b {
            Mode::Fresh => true,
            _ => false,
        },
        Mode::MayPut(x) => match b {
            Mode::MayPut(y) => x == y,
            _ => false,
        },
        Mode::MayTake(x) => match b {
            Mode::MayTake(y) => x == y,
            _ => false,
        },
        Mode::Begun => match b {
            Mode::Begun => true,
            _ => false,
        },
        Mode::Free => match b {
            Mode::Free => true,
            _ => false,
        },
        Mode::Changed => match b {
            Mode::Changed => true,
            _ => false,
        },
    }
}
