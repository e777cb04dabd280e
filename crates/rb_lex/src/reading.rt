//! Reading what comes next from a place: a gap, and then a token, the end or a fault.

ghost use Rattle.std.specs.Prelude.{◌≡◌, ◌+◌, ◌*◌, ◌^◌, ◌<◌, ◌≤◌, length, false, IfOk};
ghost use Rattle.rb_lex.specs.Tokens.{next_from};
ghost use Rattle.rb_lex.specs.Gaps.{HasRoom, Reads, here};

use crate::bytes::columns_on;
use crate::cut::{Cut, Stop, front_cut};
use crate::gap::{Point, pass_gap};
use crate::token::Token;
use rb_base::{Edition, Place, SourceFault};

// A token, or none at the end, and the point after it.
#[derive(Clone, Copy)]
pub(crate) struct Reading<'a> {
    pub(crate) token: Option<Token<'a>>,
    pub(crate) after: Point<'a>,
}

// What comes next from a place on.
pub(crate) fn read_next<'a>(
    edition: Edition,
    place: Place,
    bytes: &'a [u8],
) -> Result<Reading<'a>, SourceFault>
    requires { HasRoom place bytes.now }
    ensures reads { Reads (next_from edition false place bytes.now) result }
    ensures room { IfOk result (λ reading. HasRoom reading.after.place reading.after.left.now) }
{
    let point = pass_gap(place, bytes)?;
    if point.left.is_empty() {
        return Ok(Reading {
            token: None,
            after: point,
        });
    }
    read_token(edition, point.place, point.left)
}

// The token at the front of the bytes, where no blank and no comment stands.
fn read_token<'a>(
    edition: Edition,
    place: Place,
    bytes: &'a [u8],
) -> Result<Reading<'a>, SourceFault>
    requires some { 0 < length bytes.now }
    requires room { HasRoom place bytes.now }
    ensures reads { Reads (here edition place bytes.now) result }
    ensures room { IfOk result (λ reading. HasRoom reading.after.place reading.after.left.now) }
{
    match front_cut(edition, bytes) {
        Ok(Cut { kind, size }) => {
            let (text, left) = bytes.split_at(size);
            let after = Point {
                place: columns_on(place, size),
                left,
            };
            let token = Token { kind, text, place };
            Ok(Reading {
                token: Some(token),
                after,
            })
        }
        Err(Stop { name, offset }) => Err(SourceFault {
            name,
            place: columns_on(place, offset),
        }),
    }
}
