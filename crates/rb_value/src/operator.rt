//! What each operator gives for two values, and what its left operand decides alone.

ghost use Rattle.std.specs.Prelude.{◌≡◌, Bool, ◌+ℤ◌, ◌-ℤ◌, ◌*ℤ◌, int_lt, int_le, not};
ghost use Rattle.std.specs.Ordering.{int_eq};
ghost use Rattle.rb_meaning.specs.Value.{truth, is_zero, divided, remainder, applied, decided};

use rb_base::Cause;
use rb_syntax::Op;

/// 1 if it is so, else 0.
pub fn truth(holds: bool) -> i64
    ensures { result ≡ truth holds }
{
    if holds { 1 } else { 0 }
}

/// A quotient, truncated towards zero.
fn divided(a: i64, b: i64) -> Result<i64, Cause>
    ensures { result ≡ divided a b }
{
    if b == 0 {
        return Err(Cause::Zero);
    }
    a.checked_div(b).ok_or(Cause::Overflow)
}

/// The rest of a division, with the sign of the dividend.
fn remainder(a: i64, b: i64) -> Result<i64, Cause>
    ensures { result ≡ remainder a b }
{
    if b == 0 {
        return Err(Cause::Zero);
    }
    Ok(a.wrapping_rem(b))
}

/// An operator on two values.
pub fn applied(op: Op, a: i64, b: i64) -> Result<i64, Cause>
    ensures { result ≡ applied op a b }
{
    match op {
        Op::Or | Op::And => Ok(truth(b != 0)),
        Op::Eq => Ok(truth(a == b)),
        Op::Ne => Ok(truth(a != b)),
        Op::Lt => Ok(truth(a < b)),
        Op::Le => Ok(truth(a <= b)),
        Op::Gt => Ok(truth(a > b)),
        Op::Ge => Ok(truth(a >= b)),
        Op::Add => a.checked_add(b).ok_or(Cause::Overflow),
        Op::Sub => a.checked_sub(b).ok_or(Cause::Overflow),
        Op::Mul => a.checked_mul(b).ok_or(Cause::Overflow),
        Op::Div => divided(a, b),
        Op::Rem => remainder(a, b),
    }
}

/// The value that the left operand alone decides, if it does.
pub fn decided(op: Op, a: i64) -> Option<i64>
    ensures { result ≡ decided op a }
{
    match op {
        Op::Or if a != 0 => Some(1),
        Op::And if a == 0 => Some(0),
        _ => None,
    }
}
