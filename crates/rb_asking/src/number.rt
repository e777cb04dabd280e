//! The number of a trial, as a word of the command line gives it.
ghost use Rattle.std.specs.Prelude.{◌≡◌, ◌+◌, ◌-◌, ◌*◌, ◌^◌, nat_lt, cond};
ghost use Rattle.rb_base.specs.Bytes.{digits_value};
ghost use Rattle.rb_asking.specs.Number.{trial_number};

use rb_base::numbers::is_number;

/// How many digits a number has at most, those at its front that are 0 among them.
const MOST_DIGITS: usize = 20;

/// The number that a word of one to twenty digits stands for, if it has no more than 64 bits; none for another word.
pub fn trial_number(word: &[u8]) -> Option<u64>
    ensures { result ≡ trial_number word.now }
{
    if is_number(word) && word.len() <= MOST_DIGITS {
        value_of(word)
    } else {
        None
    }
}

// The number that digits stand for; none where it has more than 64 bits.
fn value_of(digits: &[u8]) -> Option<u64>
    ensures { result ≡ cond (nat_lt (digits_value 0 digits.now) (2 ^ 64)) (Some (digits_value 0 digits.now)) None }
{
    let mut value = 0;
    let mut rest = digits;
    while let [digit, after @ ..] = rest {
        value = add_digit(value, *digit)?;
        rest = after;
    }
    Some(value)
}

// One digit more.
fn add_digit(value: u64, digit: u8) -> Option<u64>
    ensures { let more = 10 * value + (digit - 48) in result ≡ cond (nat_lt more (2 ^ 64)) (Some more) None }
{
    value
        .checked_mul(10)?
        .checked_add(u64::from(digit.saturating_sub(b'0')))
}
