//! Tokens that are numbers.

ghost use Rattle.std.specs.Prelude.{◌≡◌, ◌+◌, ◌*◌, ◌≤◌, ◌-◌, ◌^◌, length, take_while};
ghost use Rattle.std.specs.List.{prefix_len};
ghost use Rattle.rb_base.specs.Bytes.{is_digit};
ghost use Rattle.rb_lex.specs.Tokens.{number_front};
ghost use Rattle.rb_lex.specs.Cuts.{front_of, reach_of};

use crate::cut::{Cut, Stop};
use crate::token::Kind;
use rb_base::FaultName;
use rb_base::bytes::is_digit;
use rb_base::numbers::number_value;

// A number. Its digits may be any number; only their value has a limit.
pub(crate) fn number_cut(bytes: &[u8]) -> Result<Cut, Stop>
    ensures value { front_of result ≡ number_front (take_while is_digit bytes.now) }
    ensures within { reach_of result ≤ length bytes.now }
{
    let size = digits_len(bytes);
    match number_value(&bytes[..size]) {
        Some(value) => Ok(Cut {
            kind: Kind::Number(value as i64),
            size,
        }),
        None => Err(Stop::at_front(FaultName::X3)),
    }
}

// How many digits stand at the front.
fn digits_len(bytes: &[u8]) -> usize
    ensures { result ≡ prefix_len is_digit bytes.now }
{
    for (at, b) in bytes.iter().enumerate() {
        if !is_digit(*b) {
            return at;
        }
    }
    bytes.len()
}
