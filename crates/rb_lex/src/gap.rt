//! Passing the blanks and comments before a token.

ghost use Rattle.std.specs.Prelude.{◌≡◌, ◌+◌, ◌*◌, ◌-◌, ◌^◌, ◌≤◌, length, false, IfOk};
ghost use Rattle.rb_base.specs.declared.edition.Edition.{Edition};
ghost use Rattle.rb_lex.specs.Tokens.{next_from};
ghost use Rattle.rb_lex.specs.Gaps.{HasRoom, Passes, step_of};

use crate::bytes::{is_blank, is_comment_byte, place_after};
use rb_base::{FaultName, Place, SourceFault};

// A place in a source, and the bytes from there on.
#[derive(Clone, Copy)]
pub(crate) struct Point<'a> {
    pub(crate) place: Place,
    pub(crate) left: &'a [u8],
}

// Passes the blanks and comments before a token or the end.
pub(crate) fn pass_gap<'a>(place: Place, bytes: &'a [u8]) -> Result<Point<'a>, SourceFault>
    requires { HasRoom place bytes.now }
    ensures passes { (edition : Edition) → Passes (next_from edition false place bytes.now) edition result }
    ensures room { IfOk result (λ point. HasRoom point.place point.left.now) }
{
    let mut place = place;
    let mut left = bytes;
    let mut in_comment = false;
    while let [b, after @ ..] = left {
        match step_at(in_comment, *b) {
            Step::Pass(goes_on) => {
                in_comment = goes_on;
                place = place_after(place, *b);
                left = after;
            }
            Step::Begin => return Ok(Point { place, left }),
            Step::Fault => {
                return Err(SourceFault {
                    name: FaultName::X1,
                    place,
                });
            }
        }
    }
    Ok(Point { place, left })
}

// What a byte does before a token: it is passed, and a comment goes on after it or not; or a token begins; or
// no comment holds it.
#[derive(Clone, Copy)]
pub(crate) enum Step {
    Pass(bool),
    Begin,
    Fault,
}

fn step_at(in_comment: bool, b: u8) -> Step
    ensures { result ≡ step_of in_comment b }
{
    if in_comment {
        if b == b'\n' {
            Step::Pass(false)
        } else if is_comment_byte(b) {
            Step::Pass(true)
        } else {
            Step::Fault
        }
    } else if is_blank(b) {
        Step::Pass(false)
    } else if b == b'#' {
        Step::Pass(true)
    } else {
        Step::Begin
    }
}
