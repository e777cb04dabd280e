//! The value of an expression over the tree, or the trap that its evaluation meets first.

ghost use Rattle.std.specs.Prelude.{◌≡◌, ◌<◌, ◌+ℤ◌, pos};
ghost use Rattle.rb_syntax.specs.Plain.{expression as plain, reference, links_of};
ghost use Rattle.rb_meaning.specs.Value.{value, read, chained, operated, over_span, every_from, some_from, sum_from};
ghost use Rattle.rb_walk.specs.Counters.{counted, body_values};

use crate::counter::Counters;
use crate::element::{element_at, number_at};
use crate::environment::Environment;
use rb_base::Cause;
use rb_syntax::{Expr, Link, Op, Quantified, Quantifier, Target};
use rb_value::operator::{applied, decided, truth};
use rb_value::span::{Numbers, span};

/// The value of an expression, or the trap that its evaluation meets first.
#[cycle(value)]
#[tactic(auto, using(rb_syntax::proofs::Bridge::trees))]
pub fn value_of(
    environment: &Environment<'_>,
    prior: &Environment<'_>,
    counters: &Counters<'_>,
    expression: &Expr<'_>,
) -> Result<i64, Cause>
    ensures { result ≡ value environment.now prior.now (counted counters.now) (plain expression.now) }
{
    match expression {
        Expr::Number(number) => Ok(number.value),
        Expr::Value(target) => read(environment, prior, counters, environment, counters, target),
        Expr::Prior(_, target) => read(
            environment,
            prior,
            counters,
            prior,
            &Counters::None,
            target,
        ),
        Expr::Neg(operand) => value_of(environment, prior, counters, operand)?
            .checked_neg()
            .ok_or(Cause::Overflow),
        Expr::Not(operand) => Ok(truth(value_of(environment, prior, counters, operand)? == 0)),
        Expr::Chain(first, links) => {
            let first = value_of(environment, prior, counters, first);
            chained(environment, prior, counters, first, links)
        }
        Expr::Quantified(quantified) => over_span(environment, prior, counters, quantified),
    }
}

/// A variable is read where it is looked up, with the counters that count there; its index has its present value.
#[cycle(value)]
#[tactic(auto, using(rb_syntax::proofs::Bridge::trees))]
fn read(
    environment: &Environment<'_>,
    prior: &Environment<'_>,
    counters: &Counters<'_>,
    there: &Environment<'_>,
    names: &Counters<'_>,
    target: &Target<'_>,
) -> Result<i64, Cause>
    ensures { result ≡ read environment.now prior.now (counted counters.now) there.now (counted names.now) (reference target.now) }
{
    let values = there.values(target.name.text);
    match &target.index {
        None => match names.get(target.name.text) {
            Some(value) => Ok(value),
            None => Ok(number_at(values, 0)),
        },
        Some(index) => element_at(values, value_of(environment, prior, counters, index)?),
    }
}

/// Operators of one level, from left to right.
#[cycle(value)]
#[tactic(auto, using(rb_syntax::proofs::Bridge::trees))]
fn chained(
    environment: &Environment<'_>,
    prior: &Environment<'_>,
    counters: &Counters<'_>,
    first: Result<i64, Cause>,
    links: &[Link<'_>],
) -> Result<i64, Cause>
    ensures { result ≡ chained environment.now prior.now (counted counters.now) first (links_of links.now) }
{
    let mut left = first;
    for link in links {
        left = linked(environment, prior, counters, left, link);
    }
    left
}

/// One operator, whose right operand counts where the left one does not decide.
#[cycle(value)]
#[tactic(auto, using(rb_syntax::proofs::Bridge::trees))]
fn linked(
    environment: &Environment<'_>,
    prior: &Environment<'_>,
    counters: &Counters<'_>,
    left: Result<i64, Cause>,
    link: &Link<'_>,
) -> Result<i64, Cause>
    ensures { result ≡ operated link.now.op left (value environment.now prior.now (counted counters.now) (plain link.now.right)) }
{
    let left = left?;
    if let Some(value) = decided(link.op, left) {
        return Ok(value);
    }
    let right = value_of(environment, prior, counters, &link.right)?;
    applied(link.op, left, right)
}

/// A quantified expression.
#[cycle(value)]
#[tactic(auto, using(rb_syntax::proofs::Bridge::trees))]
fn over_span(
    environment: &Environment<'_>,
    prior: &Environment<'_>,
    counters: &Counters<'_>,
    over: &Quantified<'_>,
) -> Result<i64, Cause>
    ensures { result ≡ over_span over.now.kind
        (value environment.now prior.now (counted counters.now) (plain over.now.low.value))
        (value environment.now prior.now (counted counters.now) (plain over.now.high.value))
        (body_values environment.now prior.now counters.now over.now) }
{
    let first = value_of(environment, prior, counters, &over.low)?;
    let last = value_of(environment, prior, counters, &over.high)?;
    let count = span(first, last)?;
    let numbers = Numbers { first, count };
    match over.kind {
        Quantifier::Every => every_from(environment, prior, counters, over, numbers),
        Quantifier::Any => some_from(environment, prior, counters, over, numbers),
        Quantifier::Total => sum_from(environment, prior, counters, over, numbers),
    }
}

/// The value of the body for one of the numbers.
#[cycle(value)]
#[tactic(auto, using(rb_syntax::proofs::Bridge::trees))]
fn body_at(
    environment: &Environment<'_>,
    prior: &Environment<'_>,
    counters: &Counters<'_>,
    over: &Quantified<'_>,
    numbers: Numbers,
    step: u16,
) -> Result<i64, Cause>
    requires { step < numbers.count }
    ensures { result ≡ body_values environment.now prior.now counters.now over.now (numbers.first +ℤ pos step) }
{
    // Both are lent again, for the shorter life of the inner counter.
    let outer = &*counters;
    let name = &*over.name.text;
    let counters = outer.with(name, numbers.at(step));
    value_of(environment, prior, &counters, &over.body)
}

/// 1 if the body holds for each of the numbers.
#[cycle(value)]
fn every_from(
    environment: &Environment<'_>,
    prior: &Environment<'_>,
    counters: &Counters<'_>,
    over: &Quantified<'_>,
    numbers: Numbers,
) -> Result<i64, Cause>
    ensures { result ≡ every_from numbers.count numbers.first (body_values environment.now prior.now counters.now over.now) }
{
    for step in 0..numbers.count {
        if body_at(environment, prior, counters, over, numbers, step)? == 0 {
            return Ok(0);
        }
    }
    Ok(1)
}

/// 1 if the body holds for one of the numbers.
#[cycle(value)]
fn some_from(
    environment: &Environment<'_>,
    prior: &Environment<'_>,
    counters: &Counters<'_>,
    over: &Quantified<'_>,
    numbers: Numbers,
) -> Result<i64, Cause>
    ensures { result ≡ some_from numbers.count numbers.first (body_values environment.now prior.now counters.now over.now) }
{
    for step in 0..numbers.count {
        if body_at(environment, prior, counters, over, numbers, step)? != 0 {
            return Ok(1);
        }
    }
    Ok(0)
}

/// The sum of the body over the numbers.
#[cycle(value)]
fn sum_from(
    environment: &Environment<'_>,
    prior: &Environment<'_>,
    counters: &Counters<'_>,
    over: &Quantified<'_>,
    numbers: Numbers,
) -> Result<i64, Cause>
    ensures { result ≡ sum_from numbers.count numbers.first (body_values environment.now prior.now counters.now over.now) (pos 0) }
{
    let mut total: i64 = 0;
    for step in 0..numbers.count {
        let value = body_at(environment, prior, counters, over, numbers, step)?;
        total = applied(Op::Add, total, value)?;
    }
    Ok(total)
}
