//! The code of statements that have no statements inside.

ghost use Rattle.std.specs.Prelude.{◌≡◌, map, get_or, OnOk};
ghost use Rattle.rb_syntax.specs.Plain.{expression as plain, identifier, print_item, printed, reference};
ghost use Rattle.rb_code.specs.Agreement.Template.{One, ◌⨾◌};
ghost use Rattle.rb_code.specs.Agreement.Slots.{channel_of};
ghost use Rattle.rb_code.specs.Agreement.Forms.{ArgumentsCode, ExpressionCode, ItemsCode, PrintedCode, StoreCode};
ghost use Rattle.rb_draft.specs.Output.{output};
ghost use Rattle.rb_draft.specs.Emits.{Adds};
ghost use Rattle.rb_gen.specs.InMemory.{SendCode};
ghost use Rattle.rb_gen.specs.Writes.{WritesCall};

use crate::expressions::{emit_expression, put_bound};
use rb_base::Memory;
use rb_code::Instr;
use rb_draft::lookups::{channel_of, procedure_of, spot_of};
use rb_draft::{Draft, narrow, put, put_text};
use rb_scope::Slot;
use rb_syntax::{Expr, Item, ItemKind, Name, Target};
use std::alloc::Global;

/// The code of an assignment.
pub(crate) fn emit_assignment(
    draft: &mut Draft,
    slots: &[Slot],
    target: &Target<'_>,
    value: &Expr<'_>,
) -> Result<(), Memory>
    ensures { OnOk result
        (Adds (One Instr.Turn ⨾ StoreCode slots.now (reference target.now) (ExpressionCode slots.now (plain value.now)))
        (output draft.old) (output draft.new)) }
{
    let spot = spot_of(slots, target.name.id);
    put(draft, Instr::Turn)?;
    match &target.index {
        None => {
            emit_expression(draft, slots, value)?;
            put(draft, Instr::Store(spot))
        }
        Some(index) => {
            emit_expression(draft, slots, index)?;
            put_bound(draft, slots, target.name.id)?;
            emit_expression(draft, slots, value)?;
            put(draft, Instr::StoreAt(spot))
        }
    }
}

/// The code of a `fail`.
pub(crate) fn emit_failure(draft: &mut Draft) -> Result<(), Memory>
    ensures { OnOk result (Adds (One Instr.Turn ⨾ One Instr.Fail) (output draft.old) (output draft.new)) }
{
    put(draft, Instr::Turn)?;
    put(draft, Instr::Fail)
}

/// The code that takes the message of a channel into a place.
pub(crate) fn emit_taking(
    draft: &mut Draft,
    slots: &[Slot],
    channel: u32,
    target: &Target<'_>,
) -> Result<(), Memory>
    ensures { OnOk result (Adds (StoreCode slots.now (reference target.now) (One (Instr.Take channel))) (output draft.old) (output draft.new)) }
{
    let spot = spot_of(slots, target.name.id);
    match &target.index {
        None => {
            put(draft, Instr::Take(channel))?;
            put(draft, Instr::Store(spot))
        }
        Some(index) => {
            emit_expression(draft, slots, index)?;
            put_bound(draft, slots, target.name.id)?;
            put(draft, Instr::Take(channel))?;
            put(draft, Instr::StoreAt(spot))
        }
    }
}

/// The code of a `send`.
pub(crate) fn emit_sending(
    draft: &mut Draft,
    slots: &[Slot],
    channel: &Name<'_>,
    value: &Expr<'_>,
) -> Result<(), Memory>
    ensures { OnOk result
        (Adds (SendCode (channel_of slots.now channel.now.id) (ExpressionCode slots.now (plain value.now)))
        (output draft.old) (output draft.new)) }
{
    let number = channel_of(slots, channel.id);
    put(draft, Instr::Turn)?;
    put(draft, Instr::Room(number))?;
    emit_expression(draft, slots, value)?;
    put(draft, Instr::Put(number))
}

fn emit_item(
    alloc: Global,
    draft: &mut Draft,
    slots: &[Slot],
    item: &Item<'_>,
) -> Result<(), Memory>
    ensures { OnOk result (Adds (PrintedCode slots.now (printed item.now.what)) (output draft.old) (output draft.new)) }
{
    match &item.what {
        ItemKind::Text(text) => put_text(alloc, draft, text),
        ItemKind::Value(value) => {
            emit_expression(draft, slots, value)?;
            put(draft, Instr::Item)
        }
    }
}

fn emit_items(
    alloc: Global,
    draft: &mut Draft,
    slots: &[Slot],
    items: &[Item<'_>],
) -> Result<(), Memory>
    ensures { OnOk result (Adds (ItemsCode slots.now (map print_item items.now)) (output draft.old) (output draft.new)) }
{
    let mut rest = items;
    'items: while let [item, after @ ..] = rest {
        emit_item(alloc, draft, slots, item)?;
        rest = after;
    }
    Ok(())
}

/// The code of a `print`.
pub(crate) fn emit_printing(
    alloc: Global,
    draft: &mut Draft,
    slots: &[Slot],
    items: &[Item<'_>],
) -> Result<(), Memory>
    ensures { OnOk result
        (Adds (One Instr.Turn ⨾ ItemsCode slots.now (map print_item items.now) ⨾ One Instr.Print) (output draft.old) (output draft.new)) }
{
    put(draft, Instr::Turn)?;
    emit_items(alloc, draft, slots, items)?;
    put(draft, Instr::Print)
}

fn emit_arguments(draft: &mut Draft, slots: &[Slot], arguments: &[Expr<'_>]) -> Result<(), Memory>
    ensures { OnOk result (Adds (ArgumentsCode slots.now (map plain arguments.now)) (output draft.old) (output draft.new)) }
{
    let mut rest = arguments;
    'arguments: while let [argument, after @ ..] = rest {
        emit_expression(draft, slots, argument)?;
        rest = after;
    }
    Ok(())
}

/// The words of a procedure, by its number.
fn room_at(words: &[u32], number: u32) -> u32
    ensures { result ≡ get_or words.now number 0 }
{
    match words.get(number as usize) {
        Some(words) => *words,
        None => 0,
    }
}

/// The code of a call. `words` has the words of each procedure of the process.
pub(crate) fn emit_call(
    draft: &mut Draft,
    slots: &[Slot],
    words: &[u32],
    procedure: &Name<'_>,
    arguments: &[Expr<'_>],
) -> Result<(), Memory>
    ensures { OnOk result
        (WritesCall slots.now words.now (identifier procedure.now) (map plain arguments.now) (output draft.old) (output draft.new)) }
{
    let number = procedure_of(slots, procedure.id);
    let count = narrow(arguments.len())?;
    put(draft, Instr::Turn)?;
    emit_arguments(draft, slots, arguments)?;
    put(draft, Instr::Call(number, count, room_at(words, number)))
}
