//! Expressions, by the levels of their operators.
ghost use Rattle.std.specs.Prelude.{◌≡◌, ◌≤◌, ◌<◌, length, true, false, Some, IfOk, IfErr, OnOk};
ghost use Rattle.rb_grammar.specs.Finding.{FindsOperator, FindsQuantifier};
ghost use Rattle.rb_grammar.specs.Grammar.{chain};
ghost use Rattle.rb_grammar.specs.Machine.{Reads, fits, look};
ghost use Rattle.rb_grammar.specs.Operators.{comparison, quantifier};
ghost use Rattle.rb_grammar.specs.Parts.{Part};
ghost use Rattle.rb_grammar.specs.Reading.{IsNotRead};
ghost use Rattle.rb_syntax.specs.Plain.{expression, links_of, reference, subscript};

use crate::steps::{append, boxed, closed};
use rb_grammar::{
    Cursor, Level, Operator, Stop, Terminal, Word, find_comparison, find_operator, find_quantifier,
    read_number,
};
use rb_syntax::{Expr, Link, Quantified, Target};
use std::alloc::Global;

/// Reads an expression.
#[cycle(expression)]
pub(crate) fn read_expression<'a>(alloc: Global, cursor: &mut Cursor<'a>) -> Result<Expr<'a>, Stop>
    ensures ok { IfOk result (λ value. Reads Part.Expression (expression value) cursor.old.point cursor.new.point) }
    ensures err { IfErr result (IsNotRead Part.Expression cursor.old cursor.new) }
    ensures ending { cursor.new.ending ≡ cursor.old.ending }
    ensures shorter { OnOk result (length cursor.new.point.left < length cursor.old.point.left) }
{
    match find_quantifier(cursor.look()) {
        Some(word) => read_quantified(alloc, cursor, word),
        None => read_chain(alloc, cursor, Level::Disjunction),
    }
}

#[cycle(expression)]
fn read_quantified<'a>(alloc: Global, cursor: &mut Cursor<'a>, word: Word) -> Result<Expr<'a>, Stop>
    requires { FindsQuantifier (quantifier (look cursor.old.point.left)) (look cursor.old.point.left) (Some word) }
    ensures ok { IfOk result (λ value. Reads Part.Expression (expression value) cursor.old.point cursor.new.point) }
    ensures err { IfErr result (IsNotRead Part.Expression cursor.old cursor.new) }
    ensures ending { cursor.new.ending ≡ cursor.old.ending }
    ensures shorter { OnOk result (length cursor.new.point.left < length cursor.old.point.left) }
{
    let token = cursor.take(word.terminal)?;
    let name = cursor.take_name()?;
    cursor.take(Terminal::From)?;
    let least = read_boxed(alloc, cursor, Level::Sum)?;
    let low = closed(cursor, least, Terminal::To)?;
    let most = read_boxed(alloc, cursor, Level::Sum)?;
    let high = closed(cursor, most, Terminal::Colon)?;
    let body = read_boxed(alloc, cursor, Level::Disjunction)?;
    let (kind, place) = (word.kind, token.place);
    Ok(Expr::Quantified(Quantified {
        kind,
        place,
        name,
        low,
        high,
        body,
    }))
}

#[cycle(expression)]
fn read_boxed<'a>(
    alloc: Global,
    cursor: &mut Cursor<'a>,
    level: Level,
) -> Result<Box<Expr<'a>>, Stop>
    ensures ok { IfOk result (λ value. Reads (Part.Chain level) (expression value.value) cursor.old.point cursor.new.point) }
    ensures err { IfErr result (IsNotRead (Part.Chain level) cursor.old cursor.new) }
    ensures ending { cursor.new.ending ≡ cursor.old.ending }
    ensures shorter { OnOk result (length cursor.new.point.left < length cursor.old.point.left) }
{
    let value = read_chain(alloc, cursor, level)?;
    boxed(alloc, value)
}

/// Reads operands of one level, with their operators.
#[cycle(expression)]
fn read_chain<'a>(alloc: Global, cursor: &mut Cursor<'a>, level: Level) -> Result<Expr<'a>, Stop>
    ensures ok { IfOk result (λ value. Reads (Part.Chain level) (expression value) cursor.old.point cursor.new.point) }
    ensures err { IfErr result (IsNotRead (Part.Chain level) cursor.old cursor.new) }
    ensures ending { cursor.new.ending ≡ cursor.old.ending }
    ensures shorter { OnOk result (length cursor.new.point.left < length cursor.old.point.left) }
{
    let first = read_operand(alloc, cursor, level)?;
    let links = read_links(alloc, cursor, level)?;
    chain(alloc, first, links)
}

#[cycle(expression)]
fn read_links<'a>(
    alloc: Global,
    cursor: &mut Cursor<'a>,
    level: Level,
) -> Result<Vec<Link<'a>>, Stop>
    ensures ok { IfOk result (λ links. Reads (Part.Links level) (links_of links.items) cursor.old.point cursor.new.point) }
    ensures err { IfErr result (IsNotRead (Part.Links level) cursor.old cursor.new) }
    ensures ending { cursor.new.ending ≡ cursor.old.ending }
    ensures shorter { OnOk result (length cursor.new.point.left ≤ length cursor.old.point.left) }
{
    let mut links = Vec::new(alloc);
    'links: while let Some(Operator { terminal, op }) = find_operator(cursor.look(), level) {
        cursor.take(terminal)?;
        let right = read_operand(alloc, cursor, level)?;
        append(&mut links, Link { op, right })?;
    }
    Ok(links)
}

#[cycle(expression)]
fn read_operand<'a>(alloc: Global, cursor: &mut Cursor<'a>, level: Level) -> Result<Expr<'a>, Stop>
    ensures ok { IfOk result (λ value. Reads (Part.Operand level) (expression value) cursor.old.point cursor.new.point) }
    ensures err { IfErr result (IsNotRead (Part.Operand level) cursor.old cursor.new) }
    ensures ending { cursor.new.ending ≡ cursor.old.ending }
    ensures shorter { OnOk result (length cursor.new.point.left < length cursor.old.point.left) }
{
    match level {
        Level::Disjunction => read_chain(alloc, cursor, Level::Conjunction),
        Level::Conjunction => read_negation(alloc, cursor),
        Level::Sum => read_chain(alloc, cursor, Level::Product),
        Level::Product => read_factor(alloc, cursor),
    }
}

#[cycle(expression)]
#[tactic(auto, using(rb_syntax::proofs::Bridge::trees))]
fn read_negation<'a>(alloc: Global, cursor: &mut Cursor<'a>) -> Result<Expr<'a>, Stop>
    ensures ok { IfOk result (λ value. Reads Part.Negation (expression value) cursor.old.point cursor.new.point) }
    ensures err { IfErr result (IsNotRead Part.Negation cursor.old cursor.new) }
    ensures ending { cursor.new.ending ≡ cursor.old.ending }
    ensures shorter { OnOk result (length cursor.new.point.left < length cursor.old.point.left) }
{
    if cursor.stands_at(Terminal::Not) {
        cursor.take(Terminal::Not)?;
        let operand = read_comparison(alloc, cursor)?;
        let held = boxed(alloc, operand)?;
        Ok(Expr::Not(held))
    } else {
        read_comparison(alloc, cursor)
    }
}

#[cycle(expression)]
fn read_comparison<'a>(alloc: Global, cursor: &mut Cursor<'a>) -> Result<Expr<'a>, Stop>
    ensures ok { IfOk result (λ value. Reads Part.Comparison (expression value) cursor.old.point cursor.new.point) }
    ensures err { IfErr result (IsNotRead Part.Comparison cursor.old cursor.new) }
    ensures ending { cursor.new.ending ≡ cursor.old.ending }
    ensures shorter { OnOk result (length cursor.new.point.left < length cursor.old.point.left) }
{
    let left = read_chain(alloc, cursor, Level::Sum)?;
    let links = read_compared(alloc, cursor)?;
    chain(alloc, left, links)
}

#[cycle(expression)]
fn read_compared<'a>(alloc: Global, cursor: &mut Cursor<'a>) -> Result<Vec<Link<'a>>, Stop>
    ensures ok { IfOk result (λ links. Reads Part.Compared (links_of links.items) cursor.old.point cursor.new.point) }
    ensures err { IfErr result (IsNotRead Part.Compared cursor.old cursor.new) }
    ensures ending { cursor.new.ending ≡ cursor.old.ending }
    ensures shorter { OnOk result (length cursor.new.point.left ≤ length cursor.old.point.left) }
{
    match find_comparison(cursor.look()) {
        Some(operator) => read_right(alloc, cursor, operator),
        None => Ok(Vec::new(alloc)),
    }
}

#[cycle(expression)]
fn read_right<'a>(
    alloc: Global,
    cursor: &mut Cursor<'a>,
    operator: Operator,
) -> Result<Vec<Link<'a>>, Stop>
    requires { FindsOperator (comparison (look cursor.old.point.left)) (look cursor.old.point.left) (Some operator) }
    ensures ok { IfOk result (λ links. Reads Part.Compared (links_of links.items) cursor.old.point cursor.new.point) }
    ensures err { IfErr result (IsNotRead Part.Compared cursor.old cursor.new) }
    ensures ending { cursor.new.ending ≡ cursor.old.ending }
    ensures shorter { OnOk result (length cursor.new.point.left < length cursor.old.point.left) }
{
    cursor.take(operator.terminal)?;
    let right = read_chain(alloc, cursor, Level::Sum)?;
    let mut links = Vec::new(alloc);
    let op = operator.op;
    append(&mut links, Link { op, right })?;
    Ok(links)
}

// One operand leaves no node.
#[tactic(auto, using(rb_syntax::proofs::Bridge::trees))]
fn chain<'a>(alloc: Global, first: Expr<'a>, links: Vec<Link<'a>>) -> Result<Expr<'a>, Stop>
    ensures ok { IfOk result (λ value. expression value ≡ chain (expression first.entry) (links_of links.entry.items)) }
    ensures err { IfErr result (λ stop. stop ≡ Stop.Memory) }
{
    if links.is_empty() {
        return Ok(first);
    }
    let first = boxed(alloc, first)?;
    Ok(Expr::Chain(first, links))
}

/// Reads an atom, or one with `-` before it.
#[cycle(expression)]
#[tactic(auto, using(rb_syntax::proofs::Bridge::trees))]
fn read_factor<'a>(alloc: Global, cursor: &mut Cursor<'a>) -> Result<Expr<'a>, Stop>
    ensures ok { IfOk result (λ value. Reads Part.Factor (expression value) cursor.old.point cursor.new.point) }
    ensures err { IfErr result (IsNotRead Part.Factor cursor.old cursor.new) }
    ensures ending { cursor.new.ending ≡ cursor.old.ending }
    ensures shorter { OnOk result (length cursor.new.point.left < length cursor.old.point.left) }
{
    if cursor.stands_at(Terminal::Minus) {
        cursor.take(Terminal::Minus)?;
        let operand = read_atom(alloc, cursor)?;
        let held = boxed(alloc, operand)?;
        Ok(Expr::Neg(held))
    } else {
        read_atom(alloc, cursor)
    }
}

#[cycle(expression)]
fn read_atom<'a>(alloc: Global, cursor: &mut Cursor<'a>) -> Result<Expr<'a>, Stop>
    ensures ok { IfOk result (λ value. Reads Part.Atom (expression value) cursor.old.point cursor.new.point) }
    ensures err { IfErr result (IsNotRead Part.Atom cursor.old cursor.new) }
    ensures ending { cursor.new.ending ≡ cursor.old.ending }
    ensures shorter { OnOk result (length cursor.new.point.left < length cursor.old.point.left) }
{
    if cursor.stands_at(Terminal::Name) {
        let target = read_place(alloc, cursor)?;
        Ok(Expr::Value(target))
    } else if cursor.stands_at(Terminal::Prior) {
        read_prior(alloc, cursor)
    } else if cursor.stands_at(Terminal::OpenParen) {
        read_brackets(alloc, cursor)
    } else {
        read_literal(cursor)
    }
}

fn read_literal<'a>(cursor: &mut Cursor<'a>) -> Result<Expr<'a>, Stop>
    requires no_name { fits (look cursor.old.point.left) Terminal.Name ≡ false }
    requires no_prior { fits (look cursor.old.point.left) Terminal.Prior ≡ false }
    requires no_open_paren { fits (look cursor.old.point.left) Terminal.OpenParen ≡ false }
    ensures ok { IfOk result (λ value. Reads Part.Atom (expression value) cursor.old.point cursor.new.point) }
    ensures err { IfErr result (IsNotRead Part.Atom cursor.old cursor.new) }
    ensures ending { cursor.new.ending ≡ cursor.old.ending }
    ensures shorter { OnOk result (length cursor.new.point.left < length cursor.old.point.left) }
{
    let number = read_number(cursor)?;
    Ok(Expr::Number(number))
}

#[cycle(expression)]
#[tactic(auto, using(rb_syntax::proofs::Bridge::trees))]
fn read_prior<'a>(alloc: Global, cursor: &mut Cursor<'a>) -> Result<Expr<'a>, Stop>
    requires { fits (look cursor.old.point.left) Terminal.Prior ≡ true }
    ensures ok { IfOk result (λ value. Reads Part.Atom (expression value) cursor.old.point cursor.new.point) }
    ensures err { IfErr result (IsNotRead Part.Atom cursor.old cursor.new) }
    ensures ending { cursor.new.ending ≡ cursor.old.ending }
    ensures shorter { OnOk result (length cursor.new.point.left < length cursor.old.point.left) }
{
    let token = cursor.take(Terminal::Prior)?;
    let target = read_place(alloc, cursor)?;
    Ok(Expr::Prior(token.place, target))
}

#[cycle(expression)]
fn read_brackets<'a>(alloc: Global, cursor: &mut Cursor<'a>) -> Result<Expr<'a>, Stop>
    requires { fits (look cursor.old.point.left) Terminal.OpenParen ≡ true }
    ensures ok { IfOk result (λ value. Reads Part.Atom (expression value) cursor.old.point cursor.new.point) }
    ensures err { IfErr result (IsNotRead Part.Atom cursor.old cursor.new) }
    ensures ending { cursor.new.ending ≡ cursor.old.ending }
    ensures shorter { OnOk result (length cursor.new.point.left < length cursor.old.point.left) }
{
    cursor.take(Terminal::OpenParen)?;
    let value = read_expression(alloc, cursor)?;
    closed(cursor, value, Terminal::CloseParen)
}

/// Reads a variable, or an element of an array.
#[cycle(expression)]
pub(crate) fn read_place<'a>(alloc: Global, cursor: &mut Cursor<'a>) -> Result<Target<'a>, Stop>
    ensures ok { IfOk result (λ target. Reads Part.Place (reference target) cursor.old.point cursor.new.point) }
    ensures err { IfErr result (IsNotRead Part.Place cursor.old cursor.new) }
    ensures ending { cursor.new.ending ≡ cursor.old.ending }
    ensures shorter { OnOk result (length cursor.new.point.left < length cursor.old.point.left) }
{
    let name = cursor.take_name()?;
    let index = read_subscript(alloc, cursor)?;
    Ok(Target { name, index })
}

#[cycle(expression)]
fn read_subscript<'a>(alloc: Global, cursor: &mut Cursor<'a>) -> Result<Option<Box<Expr<'a>>>, Stop>
    ensures ok { IfOk result (λ index. Reads Part.Subscript (subscript index) cursor.old.point cursor.new.point) }
    ensures err { IfErr result (IsNotRead Part.Subscript cursor.old cursor.new) }
    ensures ending { cursor.new.ending ≡ cursor.old.ending }
    ensures shorter { OnOk result (length cursor.new.point.left ≤ length cursor.old.point.left) }
{
    if cursor.stands_at(Terminal::OpenBracket) {
        cursor.take(Terminal::OpenBracket)?;
        let value = read_expression(alloc, cursor)?;
        let index = closed(cursor, value, Terminal::CloseBracket)?;
        let held = boxed(alloc, index)?;
        Ok(Some(held))
    } else {
        Ok(None)
    }
}
