//! Instructions on operands and counters alone.

ghost use Rattle.std.specs.Prelude.{◌≡◌, ℕ, ◌+◌, ◌<◌, ◌^◌, ◌+ℤ◌, ℤ, neg_ℤ, pos, cond, not, List, [], ◌∷◌, length, option_map, slice_set, None, Ok};
ghost use Rattle.rb_base.specs.declared.limits.TheConstants.{MOST_OPERANDS};
ghost use Rattle.rb_base.specs.declared.event.Cause.TheVariants.{Index};
ghost use Rattle.rb_meaning.specs.Value.{applied, fitting, is_zero, span, truth};
ghost use Rattle.rb_code.specs.WordMachine.Workspace.{Workspace};
ghost use Rattle.rb_code.specs.WordMachine.Act.{Accepts, Going, Trapped, counted_on, counter_at, if_there, on_top, operate, or_trap, ranged, within};
ghost use Rattle.rb_base.specs.declared.event.Cause.TheVariants.{Test as TestCause};
ghost use Rattle.rb_operands.specs.Comparing.{IsComparison};
ghost use Rattle.rb_operands.specs.Outcomes.{outcome_of};

use crate::counters::{Counters, Counting};
use crate::next::Next;
use crate::operands::Operands;
use rb_base::Cause;
use rb_syntax::Op;
use rb_value::operator::{applied, truth};
use rb_value::span::span;

/// The result of an operator, or its trap.
#[inline(always)]
fn finish(value: Result<i64, Cause>, at: usize, operands: &mut Operands<'_>) -> Next
    requires at { at + 1 < 2 ^ 32 }
    requires room { length operands.old < MOST_OPERANDS }
    ensures { (m : Workspace) → outcome_of result at operands.new m ≡ or_trap value (λ z. Going (at + 1) (z ∷ operands.old) m) }
{
    match value {
        Ok(z) => {
            operands.push(z);
            Next::Go(at + 1)
        }
        Err(cause) => Next::Trap(cause),
    }
}

/// An operator on the two operands on top.
#[inline(always)]
pub fn operate(op: Op, at: usize, operands: &mut Operands<'_>) -> Next
    requires at { at + 1 < 2 ^ 32 }
    requires two { 1 < length operands.old }
    ensures { (m : Workspace)
        → outcome_of result at operands.new m
        ≡ on_top operands.old (λ y rest. on_top rest (λ x others. or_trap (applied op x y) (λ z. Going (at + 1) (z ∷ others) m))) }
{
    let right = operands.pop();
    let left = operands.pop();
    finish(applied(op, left, right), at, operands)
}

/// Whether a comparison holds.
#[inline(always)]
fn holds(op: Op, left: i64, right: i64) -> bool
    requires { IsComparison op }
    ensures { applied op left right ≡ Ok (truth result) }
{
    match op {
        Op::Eq => left == right,
        Op::Ne => left != right,
        Op::Lt => left < right,
        Op::Le => left <= right,
        Op::Gt => left > right,
        Op::Ge => left >= right,
        _ => unreachable!(),
    }
}

/// A comparison of the two operands on top.
#[inline(always)]
pub fn compare(op: Op, operands: &mut Operands<'_>) -> Next
    requires comparison { IsComparison op }
    requires two { 1 < length operands.old }
    ensures { (a : ℕ) (m : Workspace)
        → outcome_of result a operands.new m
        ≡ on_top operands.old (λ y rest. on_top rest (λ x others. or_trap (applied op x y) (λ z. Going (a + 1) (z ∷ others) m))) }
{
    let right = operands.pop();
    let left = operands.pop();
    Next::Holds(holds(op, left, right))
}

/// The number on top with the other sign.
#[inline(always)]
pub fn negate(at: usize, operands: &mut Operands<'_>) -> Next
    requires at { at + 1 < 2 ^ 32 }
    requires one { 0 < length operands.old }
    ensures { (m : Workspace)
        → outcome_of result at operands.new m ≡ on_top operands.old (λ x rest. or_trap (fitting (neg_ℤ x)) (λ z. Going (at + 1) (z ∷ rest) m)) }
{
    let x = operands.pop();
    finish(x.checked_neg().ok_or(Cause::Overflow), at, operands)
}

/// 1 where the number on top is 0, else 0; or the other way round.
#[inline(always)]
pub fn test_zero(zero: bool, at: usize, operands: &mut Operands<'_>) -> Next
    requires at { at + 1 < 2 ^ 32 }
    requires one { 0 < length operands.old }
    ensures { (m : Workspace)
        → outcome_of result at operands.new m
        ≡ on_top operands.old (λ x rest. Going (at + 1) (truth (cond zero (is_zero x) (not (is_zero x))) ∷ rest) m) }
{
    let x = operands.pop();
    operands.push(truth((x == 0) == zero));
    Next::Go(at + 1)
}

/// Pushes a number.
#[inline(always)]
pub fn push(value: i64, at: usize, operands: &mut Operands<'_>) -> Next
    requires at { at + 1 < 2 ^ 32 }
    requires room { length operands.old < MOST_OPERANDS }
    ensures { (m : Workspace) → outcome_of result at operands.new m ≡ Going (at + 1) (value ∷ operands.old) m }
{
    operands.push(value);
    Next::Go(at + 1)
}

/// Whether a number is an index below n.
fn is_within(n: u32, i: i64) -> bool
    ensures { result ≡ within n i }
{
    0 <= i && i < i64::from(n)
}

/// The trap `index`, unless the number on top is an index below n.
#[inline(always)]
pub fn bound(n: u32, at: usize, operands: &mut Operands<'_>) -> Next
    requires at { at + 1 < 2 ^ 32 }
    requires one { 0 < length operands.old }
    ensures { (m : Workspace)
        → outcome_of result at operands.new m
        ≡ on_top operands.old (λ i rest. cond (within n i) (Going (at + 1) (i ∷ rest) m) (Trapped Index)) }
{
    let i = operands.pop();
    if is_within(n, i) {
        operands.push(i);
        Next::Go(at + 1)
    } else {
        Next::Trap(Cause::Index)
    }
}

/// Goes to an address if the number on top is 0.
#[inline(always)]
pub fn jump_zero(to: u32, at: usize, operands: &mut Operands<'_>) -> Next
    requires at { at + 1 < 2 ^ 32 }
    requires one { 0 < length operands.old }
    ensures { (m : Workspace)
        → outcome_of result at operands.new m ≡ on_top operands.old (λ x rest. cond (is_zero x) (Going to rest m) (Going (at + 1) rest m)) }
{
    if operands.pop() == 0 {
        Next::Go(to as usize)
    } else {
        Next::Go(at + 1)
    }
}

/// Accepts, or traps if the number on top is 0.
#[inline(always)]
pub fn test(at: usize, operands: &mut Operands<'_>) -> Next
    requires at { at + 1 < 2 ^ 32 }
    requires one { 0 < length operands.old }
    ensures { (m : Workspace)
        → outcome_of result at operands.new m ≡ on_top operands.old (λ x rest. cond (is_zero x) (Trapped TestCause) (Accepts (at + 1) m)) }
{
    if operands.pop() == 0 {
        Next::Trap(Cause::Test)
    } else {
        Next::Accepts((at + 1) as u32)
    }
}

/// The loop over the numbers between the two operands on top begins, or is passed over.
#[inline(always)]
pub fn range(
    k: u32,
    past: u32,
    at: usize,
    operands: &mut Operands<'_>,
    counters: &mut Counters,
) -> Next
    requires at { at + 1 < 2 ^ 32 }
    requires two { 1 < length operands.old }
    ensures { (m : Workspace)
        → outcome_of result at operands.new (record m { counters = counters.new })
        ≡ on_top operands.old
        (λ y rest. on_top rest
        (λ x others. or_trap (span x y) (ranged k past (at + 1) x y others (record m { counters = counters.old })))) }
{
    let end = operands.pop();
    let now = operands.pop();
    match span(now, end) {
        Ok(0) => Next::Go(past as usize),
        Ok(_) => {
            counters.set(k, Counting { now, end });
            Next::Go(at + 1)
        }
        Err(cause) => Next::Trap(cause),
    }
}

/// One step of a counter: on to the next number, or past the loop.
#[inline(always)]
pub fn again(k: u32, first: u32, at: usize, counters: &mut Counters) -> Next
    requires at { at + 1 < 2 ^ 32 }
    ensures { (m : Workspace) (operands : List ℤ)
        → outcome_of result at operands (record m { counters = counters.new })
        ≡ if_there (counter_at k (record m { counters = counters.old }))
        (λ counter. counted_on k first (at + 1) counter operands (record m { counters = counters.old })) }
{
    match counters.get(k) {
        Some(counter) if counter.now < counter.end => {
            let now = counter.now + 1;
            counters.set(
                k,
                Counting {
                    now,
                    end: counter.end,
                },
            );
            Next::Go(first as usize)
        }
        Some(_) => {
            counters.unset(k);
            Next::Go(at + 1)
        }
        None => Next::Trap(Cause::Fail),
    }
}

/// Pushes a counter.
#[inline(always)]
pub fn counter(k: u32, at: usize, operands: &mut Operands<'_>, counters: &Counters) -> Next
    requires at { at + 1 < 2 ^ 32 }
    requires room { length operands.old < MOST_OPERANDS }
    ensures { (m : Workspace)
        → outcome_of result at operands.new (record m { counters = counters.now })
        ≡ if_there (counter_at k (record m { counters = counters.now }))
        (λ counter. Going (at + 1) (counter.now ∷ operands.old) (record m { counters = counters.now })) }
{
    match counters.get(k) {
        Some(counter) => {
            operands.push(counter.now);
            Next::Go(at + 1)
        }
        None => Next::Trap(Cause::Fail),
    }
}
