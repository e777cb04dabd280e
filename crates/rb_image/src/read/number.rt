//! Numbers, texts and what stands behind a number.

ghost use Rattle.std.specs.Prelude.{◌≡◌, ℕ, List};
ghost use Rattle.rb_image.specs.Reading.{Gives, integer_at, natural_at, optional_at, spot_at, text_at, word_at};

use crate::FormRefusal;
use rb_base::Text;
use rb_code::Spot;
use std::alloc::Global;

/// Eight bytes as a number without a sign.
#[tactic(auto, unfolding(crate::specs::Reading::word_at))]
pub(crate) fn read_word(bytes: &[u8]) -> Result<(u64, &[u8]), FormRefusal>
    ensures { Gives (λ x. (x.0, x.1.now)) result (word_at bytes.now) }
{
    if bytes.len() < 8 {
        return Err(FormRefusal::Form);
    }
    let (front, rest) = bytes.split_at(8);
    let number = u64::from_be_bytes([
        front[0], front[1], front[2], front[3], front[4], front[5], front[6], front[7],
    ]);
    Ok((number, rest))
}

/// A number with a sign.
#[tactic(auto, unfolding(crate::specs::Reading::integer_at))]
pub(crate) fn read_integer(bytes: &[u8]) -> Result<(i64, &[u8]), FormRefusal>
    ensures { Gives (λ x. (x.0, x.1.now)) result (integer_at bytes.now) }
{
    let (word, rest) = read_word(bytes)?;
    Ok((word.cast_signed(), rest))
}

/// A number of 32 bits.
#[tactic(auto, unfolding(crate::specs::Reading::natural_at))]
pub(crate) fn read_natural(bytes: &[u8]) -> Result<(u32, &[u8]), FormRefusal>
    ensures { Gives (λ x. (x.0, x.1.now)) result (natural_at bytes.now) }
{
    let (word, rest) = read_word(bytes)?;
    if word > u32::MAX as u64 {
        return Err(FormRefusal::Form);
    }
    Ok((word as u32, rest))
}

/// A text.
#[tactic(auto, unfolding(crate::specs::Reading::text_at))]
pub(crate) fn read_text(alloc: Global, bytes: &[u8]) -> Result<(Text, &[u8]), FormRefusal>
    ensures { Gives (λ x. (x.0, x.1.now)) result (text_at bytes.now) }
{
    let (length, rest) = read_word(bytes)?;
    let length = length as usize;
    if rest.len() < length {
        return Err(FormRefusal::Form);
    }
    let (text, rest) = rest.split_at(length);
    Ok((Text::from_slice(alloc, text)?, rest))
}

/// An optional number.
#[tactic(auto, unfolding(crate::specs::Reading::optional_at))]
pub(crate) fn read_optional(bytes: &[u8]) -> Result<(Option<u32>, &[u8]), FormRefusal>
    ensures { Gives (λ x. (x.0, x.1.now)) result (optional_at bytes.now) }
{
    let (flag, rest) = read_word(bytes)?;
    match flag {
        0 => Ok((None, rest)),
        1 => {
            let (number, rest) = read_natural(rest)?;
            Ok((Some(number), rest))
        }
        _ => Err(FormRefusal::Form),
    }
}

/// A word of a process.
#[tactic(auto, unfolding(crate::specs::Reading::spot_at))]
pub(crate) fn read_spot(bytes: &[u8]) -> Result<(Spot, &[u8]), FormRefusal>
    ensures { Gives (λ x. (x.0, x.1.now)) result (spot_at bytes.now) }
{
    let (flag, rest) = read_word(bytes)?;
    match flag {
        0 => {
            let (place, rest) = read_natural(rest)?;
            Ok((Spot::Global(place), rest))
        }
        1 => {
            let (place, rest) = read_natural(rest)?;
            Ok((Spot::Local(place), rest))
        }
        _ => Err(FormRefusal::Form),
    }
}
