//! Tokens that are texts between quotes.

ghost use Rattle.std.specs.Prelude.{◌≡◌, ◌≤◌, ◌+◌, length};
ghost use Rattle.rb_lex.specs.Tokens.{text_front};
ghost use Rattle.rb_lex.specs.Cuts.{front_of, reach_of};

use crate::bytes::is_printable;
use crate::cut::{Cut, Stop};
use crate::token::Kind;
use rb_base::{FaultName, LONGEST_TEXT};

// A text, from the byte after its quote.
pub(crate) fn text_cut(bytes: &[u8]) -> Result<Cut, Stop>
    ensures value { front_of result ≡ text_front 0 bytes.now }
    ensures within { reach_of result ≤ length bytes.now + 1 }
{
    let mut passed = 0;
    let mut rest = bytes;
    while let [b, after @ ..] = rest {
        if *b == b'"' {
            return Ok(Cut {
                kind: Kind::Text,
                size: passed + 2,
            });
        }
        if *b == b'\n' || *b == b'\r' {
            break;
        }
        if passed >= LONGEST_TEXT {
            return Err(Stop::at_front(FaultName::X4));
        }
        if !is_printable(*b) {
            return Err(Stop {
                name: FaultName::X1,
                offset: passed + 1,
            });
        }
        passed += 1;
        rest = after;
    }
    Err(Stop::at_front(FaultName::X2))
}
