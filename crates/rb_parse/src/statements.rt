//! Blocks, the statements that have blocks, and recovery blocks.
ghost use Rattle.std.specs.Prelude.{◌≡◌, ◌≤◌, ◌<◌, length, true, IfOk, IfErr, OnOk};
ghost use Rattle.std.specs.Option.{is_some};
ghost use Rattle.rb_grammar.specs.Grammar.{joined};
ghost use Rattle.rb_grammar.specs.Machine.{Reads, fits, look};
ghost use Rattle.rb_grammar.specs.Parts.{Part};
ghost use Rattle.rb_grammar.specs.Reading.{IsNotRead};
ghost use Rattle.rb_grammar.specs.StatementTable.{start_statement};
ghost use Rattle.rb_syntax.specs.Plain.{alternates_of, body, command, commands_of, identifier, otherwise, recovery_block};

use crate::declarations::read_declarations;
use crate::expressions::{read_expression, read_place};
use crate::simple_statements::read_simple;
use crate::steps::{append, closed};
use rb_base::Edition;
use rb_grammar::{Cursor, Stop, Terminal, may_not_wait, read_no_alternate, read_number};
use rb_syntax::{Block, Name, Recovery, Statement};
use std::alloc::Global;

/// Reads all statements that stand here.
#[cycle(statement)]
pub(crate) fn read_statements<'a>(
    alloc: Global,
    cursor: &mut Cursor<'a>,
    edition: Edition,
) -> Result<Vec<Statement<'a>>, Stop>
    ensures ok { IfOk result (λ statements. Reads (Part.Statements edition) (commands_of statements.items) cursor.old.point cursor.new.point) }
    ensures err { IfErr result (IsNotRead (Part.Statements edition) cursor.old cursor.new) }
    ensures ending { cursor.new.ending ≡ cursor.old.ending }
    ensures shorter { OnOk result (length cursor.new.point.left ≤ length cursor.old.point.left) }
{
    let mut statements = Vec::new(alloc);
    'statements: while begins_statement(cursor.look()) {
        let statement = read_statement(alloc, cursor, edition)?;
        append(&mut statements, statement)?;
    }
    Ok(statements)
}

// Both editions have the same statements.
fn begins_statement(first: Option<Terminal>) -> bool
    ensures { result ≡ is_some (start_statement Edition.First first) }
{
    matches!(
        first,
        Some(Terminal::Name | Terminal::Print | Terminal::Send | Terminal::Receive | Terminal::If)
    ) || matches!(
        first,
        Some(
            Terminal::While
                | Terminal::Call
                | Terminal::Fail
                | Terminal::Ensure
                | Terminal::Converse
        )
    )
}

#[cycle(statement)]
fn read_statement<'a>(
    alloc: Global,
    cursor: &mut Cursor<'a>,
    edition: Edition,
) -> Result<Statement<'a>, Stop>
    ensures ok { IfOk result (λ statement. Reads (Part.Statement edition) (command statement) cursor.old.point cursor.new.point) }
    ensures err { IfErr result (IsNotRead (Part.Statement edition) cursor.old cursor.new) }
    ensures ending { cursor.new.ending ≡ cursor.old.ending }
    ensures shorter { OnOk result (length cursor.new.point.left < length cursor.old.point.left) }
{
    if cursor.stands_at(Terminal::Receive) {
        read_receive(alloc, cursor, edition)
    } else if cursor.stands_at(Terminal::If) {
        read_if(alloc, cursor, edition)
    } else if cursor.stands_at(Terminal::While) {
        read_while(alloc, cursor, edition)
    } else if cursor.stands_at(Terminal::Ensure) {
        read_recover(alloc, cursor, edition)
    } else if cursor.stands_at(Terminal::Converse) {
        read_converse(alloc, cursor, edition)
    } else {
        read_simple(alloc, cursor)
    }
}

/// Reads a block.
#[cycle(statement)]
pub(crate) fn read_block<'a>(
    alloc: Global,
    cursor: &mut Cursor<'a>,
    edition: Edition,
) -> Result<Block<'a>, Stop>
    ensures ok { IfOk result (λ block. Reads (Part.Block edition) (body block) cursor.old.point cursor.new.point) }
    ensures err { IfErr result (IsNotRead (Part.Block edition) cursor.old cursor.new) }
    ensures ending { cursor.new.ending ≡ cursor.old.ending }
    ensures shorter { OnOk result (length cursor.new.point.left < length cursor.old.point.left) }
{
    cursor.take(Terminal::OpenBrace)?;
    let vars = read_declarations(alloc, cursor)?;
    let body = read_statements(alloc, cursor, edition)?;
    closed(cursor, Block { vars, body }, Terminal::CloseBrace)
}

#[cycle(statement)]
#[tactic(auto, using(rb_syntax::proofs::Bridge::trees))]
fn read_if<'a>(
    alloc: Global,
    cursor: &mut Cursor<'a>,
    edition: Edition,
) -> Result<Statement<'a>, Stop>
    requires { fits (look cursor.old.point.left) Terminal.If ≡ true }
    ensures ok { IfOk result (λ statement. Reads (Part.Statement edition) (command statement) cursor.old.point cursor.new.point) }
    ensures err { IfErr result (IsNotRead (Part.Statement edition) cursor.old cursor.new) }
    ensures ending { cursor.new.ending ≡ cursor.old.ending }
    ensures shorter { OnOk result (length cursor.new.point.left < length cursor.old.point.left) }
{
    cursor.take(Terminal::If)?;
    let test = read_expression(alloc, cursor)?;
    let block = read_block(alloc, cursor, edition)?;
    let otherwise = read_else(alloc, cursor, edition)?;
    Ok(Statement::If(test, block, otherwise))
}

#[cycle(statement)]
fn read_else<'a>(
    alloc: Global,
    cursor: &mut Cursor<'a>,
    edition: Edition,
) -> Result<Option<Block<'a>>, Stop>
    ensures ok { IfOk result (λ block. Reads (Part.OptionalElse edition) (otherwise block) cursor.old.point cursor.new.point) }
    ensures err { IfErr result (IsNotRead (Part.OptionalElse edition) cursor.old cursor.new) }
    ensures ending { cursor.new.ending ≡ cursor.old.ending }
    ensures shorter { OnOk result (length cursor.new.point.left ≤ length cursor.old.point.left) }
{
    if cursor.stands_at(Terminal::Else) {
        cursor.take(Terminal::Else)?;
        let block = read_block(alloc, cursor, edition)?;
        Ok(Some(block))
    } else {
        Ok(None)
    }
}

#[cycle(statement)]
#[tactic(auto, using(rb_syntax::proofs::Bridge::trees))]
fn read_while<'a>(
    alloc: Global,
    cursor: &mut Cursor<'a>,
    edition: Edition,
) -> Result<Statement<'a>, Stop>
    requires { fits (look cursor.old.point.left) Terminal.While ≡ true }
    ensures ok { IfOk result (λ statement. Reads (Part.Statement edition) (command statement) cursor.old.point cursor.new.point) }
    ensures err { IfErr result (IsNotRead (Part.Statement edition) cursor.old cursor.new) }
    ensures ending { cursor.new.ending ≡ cursor.old.ending }
    ensures shorter { OnOk result (length cursor.new.point.left < length cursor.old.point.left) }
{
    cursor.take(Terminal::While)?;
    let test = read_expression(alloc, cursor)?;
    let block = read_block(alloc, cursor, edition)?;
    Ok(Statement::While(test, block))
}

#[cycle(statement)]
#[tactic(auto, using(rb_syntax::proofs::Bridge::trees))]
fn read_receive<'a>(
    alloc: Global,
    cursor: &mut Cursor<'a>,
    edition: Edition,
) -> Result<Statement<'a>, Stop>
    requires { fits (look cursor.old.point.left) Terminal.Receive ≡ true }
    ensures ok { IfOk result (λ statement. Reads (Part.Statement edition) (command statement) cursor.old.point cursor.new.point) }
    ensures err { IfErr result (IsNotRead (Part.Statement edition) cursor.old cursor.new) }
    ensures ending { cursor.new.ending ≡ cursor.old.ending }
    ensures shorter { OnOk result (length cursor.new.point.left < length cursor.old.point.left) }
{
    let channel = cursor.take_named(Terminal::Receive)?;
    let place = read_place(alloc, cursor)?;
    let otherwise = read_receipt_end(alloc, cursor, edition)?;
    Ok(Statement::Receive(channel, place, otherwise))
}

#[cycle(statement)]
fn read_receipt_end<'a>(
    alloc: Global,
    cursor: &mut Cursor<'a>,
    edition: Edition,
) -> Result<Option<Block<'a>>, Stop>
    ensures ok { IfOk result (λ block. Reads (Part.ReceiptEnd edition) (otherwise block) cursor.old.point cursor.new.point) }
    ensures err { IfErr result (IsNotRead (Part.ReceiptEnd edition) cursor.old cursor.new) }
    ensures ending { cursor.new.ending ≡ cursor.old.ending }
    ensures shorter { OnOk result (length cursor.new.point.left < length cursor.old.point.left) }
{
    if may_not_wait(edition, cursor.look()) {
        cursor.take(Terminal::Else)?;
        let block = read_block(alloc, cursor, Edition::Second)?;
        Ok(Some(block))
    } else {
        cursor.take(Terminal::Semicolon)?;
        Ok(None)
    }
}

#[cycle(statement)]
#[tactic(auto, using(rb_syntax::proofs::Bridge::trees))]
fn read_recover<'a>(
    alloc: Global,
    cursor: &mut Cursor<'a>,
    edition: Edition,
) -> Result<Statement<'a>, Stop>
    requires { fits (look cursor.old.point.left) Terminal.Ensure ≡ true }
    ensures ok { IfOk result (λ statement. Reads (Part.Statement edition) (command statement) cursor.old.point cursor.new.point) }
    ensures err { IfErr result (IsNotRead (Part.Statement edition) cursor.old cursor.new) }
    ensures ending { cursor.new.ending ≡ cursor.old.ending }
    ensures shorter { OnOk result (length cursor.new.point.left < length cursor.old.point.left) }
{
    let recovery = read_recovery(alloc, cursor, edition)?;
    Ok(Statement::Recover(recovery))
}

#[cycle(statement)]
#[tactic(auto, using(rb_syntax::proofs::Bridge::trees))]
fn read_converse<'a>(
    alloc: Global,
    cursor: &mut Cursor<'a>,
    edition: Edition,
) -> Result<Statement<'a>, Stop>
    requires { fits (look cursor.old.point.left) Terminal.Converse ≡ true }
    ensures ok { IfOk result (λ statement. Reads (Part.Statement edition) (command statement) cursor.old.point cursor.new.point) }
    ensures err { IfErr result (IsNotRead (Part.Statement edition) cursor.old cursor.new) }
    ensures ending { cursor.new.ending ≡ cursor.old.ending }
    ensures shorter { OnOk result (length cursor.new.point.left < length cursor.old.point.left) }
{
    let name = cursor.take_named(Terminal::Converse)?;
    let recovery = read_recovery(alloc, cursor, edition)?;
    Ok(Statement::Recover(join(name, recovery)))
}

// A recovery in which a member takes part in a conversation.
#[tactic(auto, using(rb_syntax::proofs::Bridge::trees))]
fn join<'a>(name: Name<'a>, mut recovery: Recovery<'a>) -> Recovery<'a>
    ensures { recovery_block result ≡ joined (identifier name.entry) (recovery_block recovery.entry) }
{
    recovery.conversation = Some(name);
    recovery
}

/// Reads a recovery block.
#[cycle(statement)]
#[tactic(auto, using(rb_syntax::proofs::Bridge::trees))]
fn read_recovery<'a>(
    alloc: Global,
    cursor: &mut Cursor<'a>,
    edition: Edition,
) -> Result<Recovery<'a>, Stop>
    ensures ok { IfOk result (λ recovery. Reads (Part.Recovery edition) (recovery_block recovery) cursor.old.point cursor.new.point) }
    ensures err { IfErr result (IsNotRead (Part.Recovery edition) cursor.old cursor.new) }
    ensures ending { cursor.new.ending ≡ cursor.old.ending }
    ensures shorter { OnOk result (length cursor.new.point.left < length cursor.old.point.left) }
{
    let number = cursor.recoveries();
    let token = cursor.take(Terminal::Ensure)?;
    let tested = read_expression(alloc, cursor)?;
    let test = closed(cursor, tested, Terminal::Within)?;
    let bound = read_number(cursor)?;
    let alternates = read_alternates(alloc, cursor, edition)?;
    Ok(Recovery {
        number,
        conversation: None,
        place: token.place,
        test,
        bound,
        alternates,
    })
}

#[cycle(statement)]
fn read_alternates<'a>(
    alloc: Global,
    cursor: &mut Cursor<'a>,
    edition: Edition,
) -> Result<Vec<Block<'a>>, Stop>
    ensures ok { IfOk result (λ alternates. Reads (Part.Alternates edition) (alternates_of alternates.items) cursor.old.point cursor.new.point) }
    ensures err { IfErr result (IsNotRead (Part.Alternates edition) cursor.old cursor.new) }
    ensures ending { cursor.new.ending ≡ cursor.old.ending }
    ensures shorter { OnOk result (length cursor.new.point.left < length cursor.old.point.left) }
{
    let mut alternates = Vec::new(alloc);
    'alternates: loop {
        let alternate = read_alternate(alloc, cursor, edition)?;
        append(&mut alternates, alternate)?;
        if !cursor.stands_at(Terminal::By) {
            read_no_alternate(cursor)?;
            return Ok(alternates);
        }
    }
}

/// Reads one alternate, with the `else` behind it.
#[cycle(statement)]
fn read_alternate<'a>(
    alloc: Global,
    cursor: &mut Cursor<'a>,
    edition: Edition,
) -> Result<Block<'a>, Stop>
    ensures ok { IfOk result (λ block. Reads (Part.Alternate edition) (body block) cursor.old.point cursor.new.point) }
    ensures err { IfErr result (IsNotRead (Part.Alternate edition) cursor.old cursor.new) }
    ensures ending { cursor.new.ending ≡ cursor.old.ending }
    ensures shorter { OnOk result (length cursor.new.point.left < length cursor.old.point.left) }
{
    cursor.take(Terminal::By)?;
    let block = read_block(alloc, cursor, edition)?;
    closed(cursor, block, Terminal::Else)
}
