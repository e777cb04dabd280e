//! Tokens that are marks, of one byte or two.

ghost use Rattle.std.specs.Prelude.{◌≡◌, ◌≤◌, ◌∷◌, [], ◌||◌, ◌&&◌, length, codes};
ghost use Rattle.rb_base.specs.Reserved.{is_one_of};
ghost use Rattle.rb_lex.specs.Tokens.{mark_front, one_marks, two_marks, own_marks};
ghost use Rattle.rb_lex.specs.Cuts.{front_of, reach_of};

use crate::cut::{Cut, Stop};
use crate::token::Kind;
use rb_base::{Edition, FaultName};

// A mark of two bytes before one of one.
pub(crate) fn mark_cut(edition: Edition, bytes: &[u8]) -> Result<Cut, Stop>
    ensures value { front_of result ≡ mark_front edition bytes.now }
    ensures within { reach_of result ≤ length bytes.now }
{
    match bytes {
        [a, b, ..] if is_two_mark(*a, *b) => Ok(Cut {
            kind: Kind::Mark,
            size: 2,
        }),
        [a, ..] if is_one_mark(edition, *a) => Ok(Cut {
            kind: Kind::Mark,
            size: 1,
        }),
        _ => Err(Stop::at_front(FaultName::X1)),
    }
}

fn is_two_mark(a: u8, b: u8) -> bool
    ensures { result ≡ is_one_of two_marks (a ∷ b ∷ []) }
{
    match a {
        b':' | b'>' => b == b'=',
        b'<' => b == b'=' || b == b'>',
        _ => false,
    }
}

fn is_one_mark(edition: Edition, a: u8) -> bool
    ensures { result ≡ (is_one_of one_marks (a ∷ []) || is_one_of (own_marks edition) (a ∷ [])) }
{
    match a {
        b';' | b',' | b'.' | b'(' | b')' | b'{' | b'}' | b'[' | b']' => true,
        b'=' | b'<' | b'>' | b'+' | b'-' | b'*' | b'/' | b'%' => true,
        b':' => matches!(edition, Edition::Second),
        _ => false,
    }
}
