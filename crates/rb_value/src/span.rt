//! The numbers that a quantified expression goes through.

ghost use Rattle.std.specs.Prelude.{◌≡◌, ◌<◌, ◌^◌, ◌+ℤ◌, ◌≤ℤ◌, pos, IfOk};
ghost use Rattle.rb_meaning.specs.Value.{span};

use rb_base::{Cause, MOST_QUANTIFIED};

/// So many numbers, from the first on.
#[derive(Clone, Copy)]
pub struct Numbers {
    pub first: i64,
    pub count: u16,
    ghost fits: { (first +ℤ pos count) ≤ℤ pos (2 ^ 63) },
}

impl Numbers {
    /// The number this many steps after the first.
    pub fn at(self, step: u16) -> i64
        requires { step < self.count }
        ensures { result ≡ self.first +ℤ pos step }
    {
        self.first + i64::from(step)
    }
}

/// How many numbers lie from `low` to `high`.
pub fn span(low: i64, high: i64) -> Result<u16, Cause>
    ensures count { result ≡ span low high }
    ensures last { IfOk result (λ count. (low +ℤ pos count) ≤ℤ pos (2 ^ 63)) }
{
    if high < low {
        return Ok(0);
    }
    match high.checked_sub(low) {
        Some(steps) if steps < i64::from(MOST_QUANTIFIED) => Ok(steps as u16 + 1),
        _ => Err(Cause::Range),
    }
}
