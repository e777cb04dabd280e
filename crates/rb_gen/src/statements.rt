//! The code of statements with statements inside.

ghost use Rattle.std.specs.Prelude.{◌≡◌, [], ◌∷◌, ◌++◌, length, IfOk, OnOk};
ghost use Rattle.rb_syntax.specs.Plain.{alternates_of, body, command, commands_of, expression as plain, identifier, otherwise, recovery_block, reference};
ghost use Rattle.rb_syntax.specs.Tree.{Loop, Receiving};
ghost use Rattle.rb_code.specs.Agreement.Forms.{ExpressionCode};
ghost use Rattle.rb_draft.specs.Output.{output};
ghost use Rattle.rb_draft.specs.Emits.{Adds};
ghost use Rattle.rb_gen.specs.InMemory.{AcceptanceCode, PutsEntry};
ghost use Rattle.rb_gen.specs.Writes.{WritesAlternates, WritesBody, WritesCommand, WritesCommands, WritesElse, WritesOtherwise, WritesRecovery, WritesThen};

use crate::expressions::{emit_expression, emit_test};
use crate::simple::{
    emit_assignment, emit_call, emit_failure, emit_printing, emit_sending, emit_taking,
};
use rb_base::Memory;
use rb_code::{BlockCode, Instr};
use rb_draft::frames::{natural, put_drop, put_frame, words_of};
use rb_draft::lookups::{channel_of, joined_of};
use rb_draft::{Draft, fill, here, leave, patch, put, settle};
use rb_scope::Slot;
use rb_syntax::{Block, Expr, Name, Recovery, Statement, Target};
use std::alloc::Global;

/// The code of a statement.
#[cycle(statement)]
pub(crate) fn emit_statement(
    alloc: Global,
    draft: &mut Draft,
    slots: &[Slot],
    words: &[u32],
    statement: &Statement<'_>,
) -> Result<(), Memory>
    ensures { OnOk result (WritesCommand slots.now words.now (command statement.now) (output draft.old) (output draft.new)) }
{
    match statement {
        Statement::Assign(target, value) => emit_assignment(draft, slots, target, value),
        Statement::Print(items) => emit_printing(alloc, draft, slots, items),
        Statement::Send(channel, value) => emit_sending(draft, slots, channel, value),
        Statement::Receive(channel, target, other) => {
            emit_receipt(alloc, draft, slots, words, other, channel, target)
        }
        Statement::If(test, block, other) => {
            let over = emit_then(alloc, draft, slots, words, block, test)?;
            emit_otherwise(alloc, draft, slots, words, other, over)
        }
        Statement::While(test, block) => emit_loop(alloc, draft, slots, words, block, test),
        Statement::Call(procedure, arguments) => {
            emit_call(draft, slots, words, procedure, arguments)
        }
        Statement::Fail => emit_failure(draft),
        Statement::Recover(recovery) => emit_recovery(alloc, draft, slots, words, recovery),
    }
}

/// The test of an `if` with its block, and the place behind the test that is left.
#[cycle(statement)]
fn emit_then(
    alloc: Global,
    draft: &mut Draft,
    slots: &[Slot],
    words: &[u32],
    block: &Block<'_>,
    test: &Expr<'_>,
) -> Result<usize, Memory>
    ensures { IfOk result (λ over. WritesThen slots.now words.now (plain test.now) (body block.now) over (output draft.old) (output draft.new)) }
{
    let over = emit_test(draft, slots, test)?;
    emit_body(alloc, draft, slots, words, block)?;
    Ok(over)
}

/// What stands behind the block of an `if`: its `else`, or nothing. The place that was left behind its test leads there.
#[cycle(statement)]
fn emit_otherwise(
    alloc: Global,
    draft: &mut Draft,
    slots: &[Slot],
    words: &[u32],
    other: &Option<Block<'_>>,
    over: usize,
) -> Result<(), Memory>
    ensures { OnOk result (WritesOtherwise slots.now words.now over (otherwise other.now) (output draft.old) (output draft.new)) }
{
    let no = match other {
        None => here(draft)?,
        Some(other) => emit_else(alloc, draft, slots, words, other)?,
    };
    patch(draft, over, Instr::JumpZero(no));
    Ok(())
}

/// The code of a `receive`, which does not wait if it has a block.
#[cycle(statement)]
fn emit_receipt(
    alloc: Global,
    draft: &mut Draft,
    slots: &[Slot],
    words: &[u32],
    other: &Option<Block<'_>>,
    channel: &Name<'_>,
    target: &Target<'_>,
) -> Result<(), Memory>
    ensures { OnOk result
        (WritesCommand slots.now words.now (Receiving (identifier channel.now) (reference target.now) (otherwise other.now))
        (output draft.old) (output draft.new)) }
{
    let number = channel_of(slots, channel.id);
    put(draft, Instr::Turn)?;
    match other {
        None => {
            put(draft, Instr::There(number))?;
            emit_taking(draft, slots, number, target)
        }
        Some(other) => {
            let absent = leave(draft)?;
            emit_taking(draft, slots, number, target)?;
            let none = emit_else(alloc, draft, slots, words, other)?;
            patch(draft, absent, Instr::Absent(number, none));
            Ok(())
        }
    }
}

/// The code of a `while`.
#[cycle(statement)]
fn emit_loop(
    alloc: Global,
    draft: &mut Draft,
    slots: &[Slot],
    words: &[u32],
    block: &Block<'_>,
    test: &Expr<'_>,
) -> Result<(), Memory>
    ensures { OnOk result (WritesCommand slots.now words.now (Loop (plain test.now) (body block.now)) (output draft.old) (output draft.new)) }
{
    let start = here(draft)?;
    let over = emit_test(draft, slots, test)?;
    emit_body(alloc, draft, slots, words, block)?;
    put(draft, Instr::Jump(start))?;
    let end = here(draft)?;
    patch(draft, over, Instr::JumpZero(end));
    Ok(())
}

/// The code of an `else` behind what it is the other to, and its address.
#[cycle(statement)]
fn emit_else(
    alloc: Global,
    draft: &mut Draft,
    slots: &[Slot],
    words: &[u32],
    block: &Block<'_>,
) -> Result<u32, Memory>
    ensures { IfOk result (λ no. WritesElse slots.now words.now no (body block.now) (output draft.old) (output draft.new)) }
{
    let skip = leave(draft)?;
    let start = here(draft)?;
    emit_body(alloc, draft, slots, words, block)?;
    let end = here(draft)?;
    patch(draft, skip, Instr::Jump(end));
    Ok(start)
}

/// The code of statements in order.
#[cycle(statement)]
pub(crate) fn emit_statements(
    alloc: Global,
    draft: &mut Draft,
    slots: &[Slot],
    words: &[u32],
    statements: &[Statement<'_>],
) -> Result<(), Memory>
    ensures { OnOk result (WritesCommands slots.now words.now (commands_of statements.now) (output draft.old) (output draft.new)) }
{
    'statements: for statement in statements {
        emit_statement(alloc, draft, slots, words, statement)?;
    }
    Ok(())
}

/// The code of a block.
#[cycle(statement)]
fn emit_body(
    alloc: Global,
    draft: &mut Draft,
    slots: &[Slot],
    words: &[u32],
    block: &Block<'_>,
) -> Result<(), Memory>
    ensures { OnOk result (WritesBody slots.now words.now (body block.now) (output draft.old) (output draft.new)) }
{
    let size = words_of(&block.vars)?;
    put_frame(draft, size)?;
    emit_statements(alloc, draft, slots, words, &block.body)?;
    put_drop(draft, size)
}

/// The code of a recovery block.
#[cycle(statement)]
fn emit_recovery(
    alloc: Global,
    draft: &mut Draft,
    slots: &[Slot],
    words: &[u32],
    recovery: &Recovery<'_>,
) -> Result<(), Memory>
    ensures { OnOk result (WritesRecovery slots.now words.now (recovery_block recovery.now) (output draft.old) (output draft.new)) }
{
    let number = recovery.number;
    let bound = natural(recovery.bound)?;
    let restart = put_entry(draft, number)?;
    let alternates = emit_alternates(alloc, draft, slots, words, &recovery.alternates)?;
    let test = here(draft)?;
    emit_acceptance(draft, slots, &recovery.test, number)?;
    let entry = BlockCode {
        line: recovery.place.line,
        conversation: joined_of(slots, recovery.conversation),
        bound,
        restart,
        test,
        alternates,
    };
    settle(draft, number, entry);
    Ok(())
}

/// The entry of a recovery block and a start of it, whose address is told.
fn put_entry(draft: &mut Draft, number: u32) -> Result<u32, Memory>
    ensures { IfOk result (λ restart. PutsEntry number restart (output draft.old) (output draft.new)) }
{
    put(draft, Instr::Turn)?;
    put(draft, Instr::Enter(number))?;
    let restart = here(draft)?;
    put(draft, Instr::Turn)?;
    put(draft, Instr::Start(number))?;
    Ok(restart)
}

/// The acceptance test of a recovery block.
fn emit_acceptance(
    draft: &mut Draft,
    slots: &[Slot],
    test: &Expr<'_>,
    number: u32,
) -> Result<(), Memory>
    ensures { OnOk result (Adds (AcceptanceCode number (ExpressionCode slots.now (plain test.now))) (output draft.old) (output draft.new)) }
{
    put(draft, Instr::Turn)?;
    emit_expression(draft, slots, test)?;
    put(draft, Instr::Test(number))
}

/// The code of alternates, and the address of each.
#[cycle(statement)]
fn emit_alternates(
    alloc: Global,
    draft: &mut Draft,
    slots: &[Slot],
    words: &[u32],
    alternates: &[Block<'_>],
) -> Result<Vec<u32>, Memory>
    ensures { IfOk result
        (λ addresses. WritesAlternates slots.now words.now (alternates_of alternates.now) addresses.items
        (length draft.new.instrs.items) (output draft.old) (output draft.new)) }
{
    let mut addresses = Vec::new(alloc);
    let [first, others @ ..] = alternates else {
        return Ok(addresses);
    };
    emit_alternate(alloc, draft, slots, words, first, &mut addresses)?;
    let mut places = Vec::new(alloc);
    'others: for other in others {
        let place = leave(draft)?;
        places.push(place)?;
        emit_alternate(alloc, draft, slots, words, other, &mut addresses)?;
    }
    let test = here(draft)?;
    fill(draft, &places, Instr::Jump(test));
    Ok(addresses)
}

/// The code of an alternate, whose address comes to those before it.
#[cycle(statement)]
fn emit_alternate(
    alloc: Global,
    draft: &mut Draft,
    slots: &[Slot],
    words: &[u32],
    block: &Block<'_>,
    addresses: &mut Vec<u32>,
) -> Result<(), Memory>
    ensures address { OnOk result (addresses.new.items ≡ addresses.old.items ++ length draft.old.instrs.items ∷ []) }
    ensures code { OnOk result (WritesBody slots.now words.now (body block.now) (output draft.old) (output draft.new)) }
{
    let start = here(draft)?;
    addresses.push(start)?;
    emit_body(alloc, draft, slots, words, block)
}
