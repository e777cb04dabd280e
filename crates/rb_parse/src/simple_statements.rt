//! Statements that have no block.
ghost use Rattle.std.specs.Prelude.{◌≡◌, ◌≤◌, ◌<◌, length, map, true, false, IfOk, IfErr, OnOk};
ghost use Rattle.std.specs.Option.{is_some};
ghost use Rattle.rb_grammar.specs.ExpressionTable.{start_expression, start_sum};
ghost use Rattle.rb_grammar.specs.Grammar.{between_quotes};
ghost use Rattle.rb_grammar.specs.Machine.{Reads, fits, look};
ghost use Rattle.rb_grammar.specs.Parts.{Part};
ghost use Rattle.rb_grammar.specs.Reading.{IsNotRead};
ghost use Rattle.rb_syntax.specs.Plain.{command, expression, print_item};

use crate::expressions::{read_expression, read_place};
use crate::steps::{append, closed};
use rb_base::Edition;
use rb_grammar::{Cursor, Stop, Terminal};
use rb_syntax::{Expr, Item, ItemKind, Statement};
use std::alloc::Global;

/// Reads a statement that has no block.
pub(crate) fn read_simple<'a>(alloc: Global, cursor: &mut Cursor<'a>) -> Result<Statement<'a>, Stop>
    requires no_receive { fits (look cursor.old.point.left) Terminal.Receive ≡ false }
    requires no_if { fits (look cursor.old.point.left) Terminal.If ≡ false }
    requires no_while { fits (look cursor.old.point.left) Terminal.While ≡ false }
    requires no_ensure { fits (look cursor.old.point.left) Terminal.Ensure ≡ false }
    requires no_converse { fits (look cursor.old.point.left) Terminal.Converse ≡ false }
    ensures ok { (edition : Edition)
        → IfOk result (λ statement. Reads (Part.Statement edition) (command statement) cursor.old.point cursor.new.point) }
    ensures err { (edition : Edition) → IfErr result (IsNotRead (Part.Statement edition) cursor.old cursor.new) }
    ensures ending { cursor.new.ending ≡ cursor.old.ending }
    ensures shorter { OnOk result (length cursor.new.point.left < length cursor.old.point.left) }
{
    if cursor.stands_at(Terminal::Print) {
        read_print(alloc, cursor)
    } else if cursor.stands_at(Terminal::Send) {
        read_send(alloc, cursor)
    } else if cursor.stands_at(Terminal::Call) {
        read_call(alloc, cursor)
    } else if cursor.stands_at(Terminal::Fail) {
        read_fail(cursor)
    } else {
        read_assignment(alloc, cursor)
    }
}

fn read_assignment<'a>(alloc: Global, cursor: &mut Cursor<'a>) -> Result<Statement<'a>, Stop>
    requires no_receive { fits (look cursor.old.point.left) Terminal.Receive ≡ false }
    requires no_if { fits (look cursor.old.point.left) Terminal.If ≡ false }
    requires no_while { fits (look cursor.old.point.left) Terminal.While ≡ false }
    requires no_ensure { fits (look cursor.old.point.left) Terminal.Ensure ≡ false }
    requires no_converse { fits (look cursor.old.point.left) Terminal.Converse ≡ false }
    requires no_print { fits (look cursor.old.point.left) Terminal.Print ≡ false }
    requires no_send { fits (look cursor.old.point.left) Terminal.Send ≡ false }
    requires no_call { fits (look cursor.old.point.left) Terminal.Call ≡ false }
    requires no_fail { fits (look cursor.old.point.left) Terminal.Fail ≡ false }
    ensures ok { (edition : Edition)
        → IfOk result (λ statement. Reads (Part.Statement edition) (command statement) cursor.old.point cursor.new.point) }
    ensures err { (edition : Edition) → IfErr result (IsNotRead (Part.Statement edition) cursor.old cursor.new) }
    ensures ending { cursor.new.ending ≡ cursor.old.ending }
    ensures shorter { OnOk result (length cursor.new.point.left < length cursor.old.point.left) }
{
    let named = read_place(alloc, cursor)?;
    let place = closed(cursor, named, Terminal::Becomes)?;
    let value = read_expression(alloc, cursor)?;
    closed(cursor, Statement::Assign(place, value), Terminal::Semicolon)
}

fn read_print<'a>(alloc: Global, cursor: &mut Cursor<'a>) -> Result<Statement<'a>, Stop>
    requires { fits (look cursor.old.point.left) Terminal.Print ≡ true }
    ensures ok { (edition : Edition)
        → IfOk result (λ statement. Reads (Part.Statement edition) (command statement) cursor.old.point cursor.new.point) }
    ensures err { (edition : Edition) → IfErr result (IsNotRead (Part.Statement edition) cursor.old cursor.new) }
    ensures ending { cursor.new.ending ≡ cursor.old.ending }
    ensures shorter { OnOk result (length cursor.new.point.left < length cursor.old.point.left) }
{
    cursor.take(Terminal::Print)?;
    let items = read_items(alloc, cursor)?;
    closed(cursor, Statement::Print(items), Terminal::Semicolon)
}

fn read_items<'a>(alloc: Global, cursor: &mut Cursor<'a>) -> Result<Vec<Item<'a>>, Stop>
    ensures ok { IfOk result (λ items. Reads Part.Items (map print_item items.items) cursor.old.point cursor.new.point) }
    ensures err { IfErr result (IsNotRead Part.Items cursor.old cursor.new) }
    ensures ending { cursor.new.ending ≡ cursor.old.ending }
    ensures shorter { OnOk result (length cursor.new.point.left < length cursor.old.point.left) }
{
    let mut items = Vec::new(alloc);
    'items: loop {
        let item = read_item(alloc, cursor)?;
        append(&mut items, item)?;
        if !cursor.stands_at(Terminal::Comma) {
            return Ok(items);
        }
        cursor.take(Terminal::Comma)?;
    }
}

fn read_item<'a>(alloc: Global, cursor: &mut Cursor<'a>) -> Result<Item<'a>, Stop>
    ensures ok { IfOk result (λ item. Reads Part.Item (print_item item) cursor.old.point cursor.new.point) }
    ensures err { IfErr result (IsNotRead Part.Item cursor.old cursor.new) }
    ensures ending { cursor.new.ending ≡ cursor.old.ending }
    ensures shorter { OnOk result (length cursor.new.point.left < length cursor.old.point.left) }
{
    let Some(place) = cursor.place() else {
        return Err(Stop::Form);
    };
    if cursor.stands_at(Terminal::Text) {
        let token = cursor.take(Terminal::Text)?;
        let what = ItemKind::Text(between_quotes(token.text));
        Ok(Item { place, what })
    } else {
        let value = read_expression(alloc, cursor)?;
        let what = ItemKind::Value(value);
        Ok(Item { place, what })
    }
}

fn between_quotes(text: &[u8]) -> &[u8]
    ensures { result.now ≡ between_quotes text.now }
{
    match text {
        [_, inner @ .., _] => inner,
        _ => &[],
    }
}

fn read_send<'a>(alloc: Global, cursor: &mut Cursor<'a>) -> Result<Statement<'a>, Stop>
    requires { fits (look cursor.old.point.left) Terminal.Send ≡ true }
    ensures ok { (edition : Edition)
        → IfOk result (λ statement. Reads (Part.Statement edition) (command statement) cursor.old.point cursor.new.point) }
    ensures err { (edition : Edition) → IfErr result (IsNotRead (Part.Statement edition) cursor.old cursor.new) }
    ensures ending { cursor.new.ending ≡ cursor.old.ending }
    ensures shorter { OnOk result (length cursor.new.point.left < length cursor.old.point.left) }
{
    let channel = cursor.take_named(Terminal::Send)?;
    let value = read_expression(alloc, cursor)?;
    closed(cursor, Statement::Send(channel, value), Terminal::Semicolon)
}

fn read_call<'a>(alloc: Global, cursor: &mut Cursor<'a>) -> Result<Statement<'a>, Stop>
    requires { fits (look cursor.old.point.left) Terminal.Call ≡ true }
    ensures ok { (edition : Edition)
        → IfOk result (λ statement. Reads (Part.Statement edition) (command statement) cursor.old.point cursor.new.point) }
    ensures err { (edition : Edition) → IfErr result (IsNotRead (Part.Statement edition) cursor.old cursor.new) }
    ensures ending { cursor.new.ending ≡ cursor.old.ending }
    ensures shorter { OnOk result (length cursor.new.point.left < length cursor.old.point.left) }
{
    let procedure = cursor.take_named(Terminal::Call)?;
    cursor.take(Terminal::OpenParen)?;
    let arguments = read_arguments(alloc, cursor)?;
    cursor.take_two(Terminal::CloseParen, Terminal::Semicolon)?;
    Ok(Statement::Call(procedure, arguments))
}

fn read_arguments<'a>(alloc: Global, cursor: &mut Cursor<'a>) -> Result<Vec<Expr<'a>>, Stop>
    ensures ok { IfOk result (λ values. Reads Part.Arguments (map expression values.items) cursor.old.point cursor.new.point) }
    ensures err { IfErr result (IsNotRead Part.Arguments cursor.old cursor.new) }
    ensures ending { cursor.new.ending ≡ cursor.old.ending }
    ensures shorter { OnOk result (length cursor.new.point.left ≤ length cursor.old.point.left) }
{
    if begins_expression(cursor.look()) {
        read_expressions(alloc, cursor)
    } else {
        Ok(Vec::new(alloc))
    }
}

fn begins_expression(first: Option<Terminal>) -> bool
    ensures { result ≡ is_some (start_expression first) }
{
    begins_sum(first)
        || matches!(
            first,
            Some(Terminal::Not | Terminal::Every | Terminal::Some | Terminal::Sum)
        )
}

fn begins_sum(first: Option<Terminal>) -> bool
    ensures { result ≡ is_some (start_sum first) }
{
    matches!(
        first,
        Some(
            Terminal::Name
                | Terminal::Number
                | Terminal::Two
                | Terminal::Prior
                | Terminal::OpenParen
                | Terminal::Minus
        )
    )
}

fn read_expressions<'a>(alloc: Global, cursor: &mut Cursor<'a>) -> Result<Vec<Expr<'a>>, Stop>
    ensures ok { IfOk result (λ values. Reads Part.Expressions (map expression values.items) cursor.old.point cursor.new.point) }
    ensures err { IfErr result (IsNotRead Part.Expressions cursor.old cursor.new) }
    ensures ending { cursor.new.ending ≡ cursor.old.ending }
    ensures shorter { OnOk result (length cursor.new.point.left < length cursor.old.point.left) }
{
    let mut values = Vec::new(alloc);
    'values: loop {
        let value = read_expression(alloc, cursor)?;
        append(&mut values, value)?;
        if !cursor.stands_at(Terminal::Comma) {
            return Ok(values);
        }
        cursor.take(Terminal::Comma)?;
    }
}

fn read_fail<'a>(cursor: &mut Cursor<'a>) -> Result<Statement<'a>, Stop>
    requires { fits (look cursor.old.point.left) Terminal.Fail ≡ true }
    ensures ok { (edition : Edition)
        → IfOk result (λ statement. Reads (Part.Statement edition) (command statement) cursor.old.point cursor.new.point) }
    ensures err { (edition : Edition) → IfErr result (IsNotRead (Part.Statement edition) cursor.old cursor.new) }
    ensures ending { cursor.new.ending ≡ cursor.old.ending }
    ensures shorter { OnOk result (length cursor.new.point.left < length cursor.old.point.left) }
{
    cursor.take_two(Terminal::Fail, Terminal::Semicolon)?;
    Ok(Statement::Fail)
}
