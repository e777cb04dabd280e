//! The code of expressions.

ghost use Rattle.std.specs.Prelude.{◌≡◌, IfOk, OnOk};
ghost use Rattle.rb_syntax.specs.Plain.{expression as plain, links_of};
ghost use Rattle.rb_code.specs.Agreement.Slots.{elements_of};
ghost use Rattle.rb_code.specs.Agreement.Template.{One};
ghost use Rattle.rb_code.specs.Agreement.Forms.{AndCode, EveryCode, ExpressionCode, LinksCode, OperatorCode, OrCode, QuantifiedCode, ScalarCode, SomeCode, SumCode};
ghost use Rattle.rb_draft.specs.Output.{output};
ghost use Rattle.rb_draft.specs.Emits.{Adds};
ghost use Rattle.rb_gen.specs.InMemory.{LeavesRange, LeavesTest, PriorCode, PutsZero, ValueCode, operator, over};

use rb_base::Memory;
use rb_code::{Instr, Spot};
use rb_draft::lookups::{counter_of, elements_of, quantified_of, spot_of};
use rb_draft::{Draft, here, leave, patch, put};
use rb_scope::Slot;
use rb_syntax::{Expr, Link, Op, Quantified, Quantifier, Target};

/// The code of an expression.
#[cycle(expression)]
pub(crate) fn emit_expression(
    draft: &mut Draft,
    slots: &[Slot],
    expression: &Expr<'_>,
) -> Result<(), Memory>
    ensures { OnOk result (Adds (ExpressionCode slots.now (plain expression.now)) (output draft.old) (output draft.new)) }
{
    match expression {
        Expr::Number(number) => put(draft, Instr::Push(number.value)),
        Expr::Value(target) => emit_value(draft, slots, target),
        Expr::Prior(_, target) => emit_prior(draft, slots, target),
        Expr::Neg(operand) => {
            emit_expression(draft, slots, operand)?;
            put(draft, Instr::Neg)
        }
        Expr::Not(operand) => {
            emit_expression(draft, slots, operand)?;
            put(draft, Instr::Not)
        }
        Expr::Chain(first, links) => {
            emit_expression(draft, slots, first)?;
            emit_links(draft, slots, links)
        }
        Expr::Quantified(quantified) => emit_quantified(draft, slots, quantified),
    }
}

/// The code of a variable, an element or a counter.
#[cycle(expression)]
fn emit_value(draft: &mut Draft, slots: &[Slot], target: &Target<'_>) -> Result<(), Memory>
    ensures { OnOk result (Adds (ValueCode slots.now target.now) (output draft.old) (output draft.new)) }
{
    let spot = spot_of(slots, target.name.id);
    match &target.index {
        None => put_scalar(draft, counter_of(slots, target.name.id), spot),
        Some(index) => {
            emit_expression(draft, slots, index)?;
            put_bound(draft, slots, target.name.id)?;
            put(draft, Instr::LoadAt(spot))
        }
    }
}

/// The code of a variable or an element as it was before the recovery block.
#[cycle(expression)]
fn emit_prior(draft: &mut Draft, slots: &[Slot], target: &Target<'_>) -> Result<(), Memory>
    ensures { OnOk result (Adds (PriorCode slots.now target.now) (output draft.old) (output draft.new)) }
{
    let spot = spot_of(slots, target.name.id);
    match &target.index {
        None => put(draft, Instr::Prior(spot)),
        Some(index) => {
            emit_expression(draft, slots, index)?;
            put_bound(draft, slots, target.name.id)?;
            put(draft, Instr::PriorAt(spot))
        }
    }
}

/// The test that an index lies within an array.
pub(crate) fn put_bound(draft: &mut Draft, slots: &[Slot], id: u32) -> Result<(), Memory>
    ensures { OnOk result (Adds (One (Instr.Bound (elements_of slots.now id))) (output draft.old) (output draft.new)) }
{
    put(draft, Instr::Bound(elements_of(slots, id)))
}

/// The value of a scalar, or the counter.
fn put_scalar(draft: &mut Draft, counter: Option<u32>, spot: Spot) -> Result<(), Memory>
    ensures { OnOk result (Adds (ScalarCode counter spot) (output draft.old) (output draft.new)) }
{
    match counter {
        None => put(draft, Instr::Load(spot)),
        Some(counter) => put(draft, Instr::Counter(counter)),
    }
}

/// The code of operators of one level with their right operands.
#[cycle(expression)]
fn emit_links(draft: &mut Draft, slots: &[Slot], links: &[Link<'_>]) -> Result<(), Memory>
    ensures { OnOk result (Adds (LinksCode slots.now (links_of links.now)) (output draft.old) (output draft.new)) }
{
    'links: for link in links {
        emit_link(draft, slots, link)?;
    }
    Ok(())
}

#[cycle(expression)]
fn emit_link(draft: &mut Draft, slots: &[Slot], link: &Link<'_>) -> Result<(), Memory>
    ensures { OnOk result (Adds (OperatorCode link.now.op (ExpressionCode slots.now (plain link.now.right))) (output draft.old) (output draft.new)) }
{
    match link.op {
        Op::And => emit_and(draft, slots, &link.right),
        Op::Or => emit_or(draft, slots, &link.right),
        op => {
            emit_expression(draft, slots, &link.right)?;
            put(draft, operator(op))
        }
    }
}

/// The instruction of an operator that evaluates both of its operands.
fn operator(op: Op) -> Instr
    ensures { result ≡ operator op }
{
    match op {
        Op::Or | Op::And => Instr::Bool,
        Op::Eq => Instr::Eq,
        Op::Ne => Instr::Ne,
        Op::Lt => Instr::Lt,
        Op::Le => Instr::Le,
        Op::Gt => Instr::Gt,
        Op::Ge => Instr::Ge,
        Op::Add => Instr::Add,
        Op::Sub => Instr::Sub,
        Op::Mul => Instr::Mul,
        Op::Div => Instr::Div,
        Op::Rem => Instr::Rem,
    }
}

#[cycle(expression)]
fn emit_and(draft: &mut Draft, slots: &[Slot], right: &Expr<'_>) -> Result<(), Memory>
    ensures { OnOk result (Adds (AndCode (ExpressionCode slots.now (plain right.now))) (output draft.old) (output draft.new)) }
{
    let test = leave(draft)?;
    emit_expression(draft, slots, right)?;
    put(draft, Instr::Bool)?;
    let no = put_zero(draft)?;
    patch(draft, test, Instr::JumpZero(no));
    Ok(())
}

/// A zero, over which the code before it leads, and its address.
fn put_zero(draft: &mut Draft) -> Result<u32, Memory>
    ensures { IfOk result (λ zero. PutsZero zero (output draft.old) (output draft.new)) }
{
    let skip = leave(draft)?;
    let zero = here(draft)?;
    put(draft, Instr::Push(0))?;
    let end = here(draft)?;
    patch(draft, skip, Instr::Jump(end));
    Ok(zero)
}

#[cycle(expression)]
fn emit_or(draft: &mut Draft, slots: &[Slot], right: &Expr<'_>) -> Result<(), Memory>
    ensures { OnOk result (Adds (OrCode (ExpressionCode slots.now (plain right.now))) (output draft.old) (output draft.new)) }
{
    let test = leave(draft)?;
    put(draft, Instr::Push(1))?;
    let skip = leave(draft)?;
    let other = here(draft)?;
    emit_expression(draft, slots, right)?;
    put(draft, Instr::Bool)?;
    let end = here(draft)?;
    patch(draft, skip, Instr::Jump(end));
    patch(draft, test, Instr::JumpZero(other));
    Ok(())
}

/// The code of a quantified expression.
#[cycle(expression)]
fn emit_quantified(
    draft: &mut Draft,
    slots: &[Slot],
    quantified: &Quantified<'_>,
) -> Result<(), Memory>
    ensures { OnOk result (Adds (over (QuantifiedCode quantified.now.kind) slots.now quantified.now) (output draft.old) (output draft.new)) }
{
    match quantified.kind {
        Quantifier::Every => emit_every(draft, slots, quantified),
        Quantifier::Any => emit_some(draft, slots, quantified),
        Quantifier::Total => emit_sum(draft, slots, quantified),
    }
}

/// The limits of a quantified expression, and a place for what enters its loop.
#[cycle(expression)]
fn emit_limits(
    draft: &mut Draft,
    slots: &[Slot],
    quantified: &Quantified<'_>,
) -> Result<usize, Memory>
    ensures { IfOk result (λ range. LeavesRange slots.now quantified.now range (output draft.old) (output draft.new)) }
{
    emit_expression(draft, slots, &quantified.low)?;
    emit_expression(draft, slots, &quantified.high)?;
    leave(draft)
}

#[cycle(expression)]
fn emit_every(draft: &mut Draft, slots: &[Slot], quantified: &Quantified<'_>) -> Result<(), Memory>
    ensures { OnOk result (Adds (over EveryCode slots.now quantified.now) (output draft.old) (output draft.new)) }
{
    let counter = quantified_of(slots, quantified.name.id);
    let range = emit_limits(draft, slots, quantified)?;
    let again = here(draft)?;
    emit_expression(draft, slots, &quantified.body)?;
    let test = leave(draft)?;
    put(draft, Instr::Again(counter, again))?;
    let yes = here(draft)?;
    put(draft, Instr::Push(1))?;
    let no = put_zero(draft)?;
    patch(draft, test, Instr::JumpZero(no));
    patch(draft, range, Instr::Range(counter, yes));
    Ok(())
}

#[cycle(expression)]
fn emit_some(draft: &mut Draft, slots: &[Slot], quantified: &Quantified<'_>) -> Result<(), Memory>
    ensures { OnOk result (Adds (over SomeCode slots.now quantified.now) (output draft.old) (output draft.new)) }
{
    let counter = quantified_of(slots, quantified.name.id);
    let range = emit_limits(draft, slots, quantified)?;
    let again = here(draft)?;
    emit_expression(draft, slots, &quantified.body)?;
    let test = leave(draft)?;
    put(draft, Instr::Push(1))?;
    let skip = leave(draft)?;
    let next = here(draft)?;
    put(draft, Instr::Again(counter, again))?;
    let no = here(draft)?;
    put(draft, Instr::Push(0))?;
    let end = here(draft)?;
    patch(draft, skip, Instr::Jump(end));
    patch(draft, test, Instr::JumpZero(next));
    patch(draft, range, Instr::Range(counter, no));
    Ok(())
}

#[cycle(expression)]
fn emit_sum(draft: &mut Draft, slots: &[Slot], quantified: &Quantified<'_>) -> Result<(), Memory>
    ensures { OnOk result (Adds (over SumCode slots.now quantified.now) (output draft.old) (output draft.new)) }
{
    let counter = quantified_of(slots, quantified.name.id);
    put(draft, Instr::Push(0))?;
    let range = emit_limits(draft, slots, quantified)?;
    let again = here(draft)?;
    emit_expression(draft, slots, &quantified.body)?;
    put(draft, Instr::Add)?;
    put(draft, Instr::Again(counter, again))?;
    let end = here(draft)?;
    patch(draft, range, Instr::Range(counter, end));
    Ok(())
}

/// The turn and the test of an `if` or a `while`, and a place for what goes by it.
pub(crate) fn emit_test(draft: &mut Draft, slots: &[Slot], test: &Expr<'_>) -> Result<usize, Memory>
    ensures { IfOk result (λ place. LeavesTest slots.now (plain test.now) place (output draft.old) (output draft.new)) }
{
    put(draft, Instr::Turn)?;
    emit_expression(draft, slots, test)?;
    leave(draft)
}
