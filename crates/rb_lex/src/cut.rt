//! The token or the fault that stands at the front of the bytes, whatever its kind.

ghost use Rattle.std.specs.Prelude.{◌≡◌, ◌≤◌, ◌<◌, length};
ghost use Rattle.rb_lex.specs.Tokens.{front};
ghost use Rattle.rb_lex.specs.Cuts.{front_of, reach_of};

use crate::marks::mark_cut;
use crate::numbers::number_cut;
use crate::texts::text_cut;
use crate::token::Kind;
use crate::words::name_cut;
use rb_base::bytes::{is_digit, is_letter};
use rb_base::{Edition, FaultName};

// A token at the front of the bytes, with its size.
#[derive(Clone, Copy)]
pub(crate) struct Cut {
    pub(crate) kind: Kind,
    pub(crate) size: usize,
}

// A fault, so many bytes after the front.
#[derive(Clone, Copy)]
pub(crate) struct Stop {
    pub(crate) name: FaultName,
    pub(crate) offset: usize,
}

impl Stop {
    // A fault at the front itself.
    pub(crate) fn at_front(name: FaultName) -> Self
        ensures { result ≡ record { name = name; offset = 0 } }
    {
        Stop { name, offset: 0 }
    }
}

// What stands at the front, where that is no blank and no comment.
pub(crate) fn front_cut(edition: Edition, bytes: &[u8]) -> Result<Cut, Stop>
    ensures value { front_of result ≡ front edition bytes.now }
    ensures within { reach_of result ≤ length bytes.now }
{
    match bytes {
        [b, after @ ..] => {
            if is_letter(*b) {
                name_cut(edition, bytes)
            } else if is_digit(*b) {
                number_cut(bytes)
            } else if *b == b'"' {
                text_cut(after)
            } else {
                mark_cut(edition, bytes)
            }
        }
        [] => Err(Stop::at_front(FaultName::X1)),
    }
}
