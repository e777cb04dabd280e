//! The sites of a statement.

ghost use Rattle.std.specs.Prelude.{◌≡◌, option_map, OnOk};
ghost use Rattle.rb_syntax.specs.Plain.{alternates_of, body as plain_body, command, commands_of, identifier, otherwise as plain_otherwise, recovery_block};
ghost use Rattle.rb_scope.specs.Sites.{alternates_sites, body_sites, command_sites, commands_sites, joined_sites, otherwise_sites, recovery_sites};
ghost use Rattle.rb_faults.specs.Finding.{visited};
ghost use Rattle.rb_faults.specs.Memory.{spot_of};

use crate::expression::visit_expression;
use crate::finder::Finder;
use crate::operands::{visit_assignment, visit_call, visit_printing, visit_receipt, visit_sending};
use crate::rules::{sum, words_in};
use crate::sites::{bounds, uses};
use crate::spot::Spot;
use crate::variables::block_scope;
use rb_base::Memory;
use rb_scope::{Scopes, Want};
use rb_syntax::{Block, Name, Recovery, Statement};
use std::alloc::Global;

/// Visits the sites of a statement.
#[cycle(statement)]
#[tactic(auto, using(rb_syntax::proofs::Bridge::trees, crate::proofs::Visited::visited_append))]
fn visit_statement<'a>(
    alloc: Global,
    statement: &Statement<'a>,
    spot: &Spot<'_, 'a>,
    finder: &mut Finder,
) -> Result<(), Memory>
    ensures { OnOk result (finder.new ≡ visited finder.old (command_sites (spot_of spot.now) (command statement.now))) }
{
    match statement {
        Statement::Assign(target, value) => visit_assignment(alloc, target, value, spot, finder),
        Statement::Print(items) => visit_printing(alloc, items, spot, finder),
        Statement::Send(channel, value) => visit_sending(alloc, *channel, value, spot, finder),
        Statement::Receive(channel, target, otherwise) => {
            visit_receipt(alloc, *channel, target, spot, finder)?;
            visit_otherwise(alloc, otherwise, spot, finder)
        }
        Statement::If(test, block, otherwise) => {
            visit_expression(alloc, test, spot, finder)?;
            visit_block(alloc, block, spot, finder)?;
            visit_otherwise(alloc, otherwise, spot, finder)
        }
        Statement::While(test, block) => {
            visit_expression(alloc, test, spot, finder)?;
            visit_block(alloc, block, spot, finder)
        }
        Statement::Call(procedure, arguments) => {
            visit_call(alloc, *procedure, arguments, spot, finder)
        }
        Statement::Fail => Ok(()),
        Statement::Recover(recovery) => visit_recovery(alloc, recovery, spot, finder),
    }
}

/// Visits the sites of an `else`, if there is one.
#[cycle(statement)]
#[tactic(auto, using(rb_syntax::proofs::Bridge::trees, crate::proofs::Visited::visited_append))]
fn visit_otherwise<'a>(
    alloc: Global,
    otherwise: &Option<Block<'a>>,
    spot: &Spot<'_, 'a>,
    finder: &mut Finder,
) -> Result<(), Memory>
    ensures { OnOk result (finder.new ≡ visited finder.old (otherwise_sites (spot_of spot.now) (plain_otherwise otherwise.now))) }
{
    match otherwise {
        None => Ok(()),
        Some(block) => visit_block(alloc, block, spot, finder),
    }
}

/// Visits the sites of statements in order.
#[cycle(statement)]
#[tactic(auto, using(rb_syntax::proofs::Bridge::trees, crate::proofs::Visited::visited_append))]
pub(crate) fn visit_statements<'a>(
    alloc: Global,
    statements: &[Statement<'a>],
    spot: &Spot<'_, 'a>,
    finder: &mut Finder,
) -> Result<(), Memory>
    ensures { OnOk result (finder.new ≡ visited finder.old (commands_sites (spot_of spot.now) (commands_of statements.now))) }
{
    for statement in statements {
        visit_statement(alloc, statement, spot, finder)?;
    }
    Ok(())
}

/// Visits the sites of a block.
#[cycle(statement)]
#[tactic(auto, using(rb_syntax::proofs::Bridge::trees, crate::proofs::Visited::visited_append))]
fn visit_block<'a>(
    alloc: Global,
    block: &Block<'a>,
    spot: &Spot<'_, 'a>,
    finder: &mut Finder,
) -> Result<(), Memory>
    ensures { OnOk result (finder.new ≡ visited finder.old (body_sites (spot_of spot.now) (plain_body block.now))) }
{
    let words = words_in(&block.vars)?;
    let taken = sum(spot.taken, words)?;
    let scope = block_scope(alloc, &block.vars, spot.taken, finder)?;
    let scopes = Scopes::Within(&scope, spot.scopes);
    let inner = Spot {
        scopes: &scopes,
        taken,
        quantified: spot.quantified,
        in_test: spot.in_test,
    };
    visit_statements(alloc, &block.body, &inner, finder)
}

/// Visits the sites of a recovery block, whose test stands outside its alternates.
#[cycle(statement)]
#[tactic(auto, using(rb_syntax::proofs::Bridge::trees, crate::proofs::Visited::visited_append))]
fn visit_recovery<'a>(
    alloc: Global,
    recovery: &Recovery<'a>,
    spot: &Spot<'_, 'a>,
    finder: &mut Finder,
) -> Result<(), Memory>
    ensures { OnOk result (finder.new ≡ visited finder.old (recovery_sites (spot_of spot.now) (recovery_block recovery.now))) }
{
    visit_joined(recovery.conversation, spot, finder)?;
    let test = Spot {
        scopes: spot.scopes,
        taken: spot.taken,
        quantified: spot.quantified,
        in_test: true,
    };
    visit_expression(alloc, &recovery.test, &test, finder)?;
    bounds(finder, recovery.bound)?;
    visit_alternates(alloc, &recovery.alternates, spot, finder)
}

/// Visits the name of the conversation that is joined, if one is.
fn visit_joined(
    conversation: Option<Name<'_>>,
    spot: &Spot<'_, '_>,
    finder: &mut Finder,
) -> Result<(), Memory>
    ensures { OnOk result
        (finder.new ≡ visited finder.old (joined_sites (spot_of spot.now) (option_map identifier conversation.entry))) }
{
    if let Some(name) = conversation {
        uses(finder, Want::AConversation, name, spot.scopes)?;
    }
    Ok(())
}

/// Visits the sites of alternates in order.
#[cycle(statement)]
#[tactic(auto, using(rb_syntax::proofs::Bridge::trees, crate::proofs::Visited::visited_append))]
fn visit_alternates<'a>(
    alloc: Global,
    alternates: &[Block<'a>],
    spot: &Spot<'_, 'a>,
    finder: &mut Finder,
) -> Result<(), Memory>
    ensures { OnOk result (finder.new ≡ visited finder.old (alternates_sites (spot_of spot.now) (alternates_of alternates.now))) }
{
    for block in alternates {
        visit_block(alloc, block, spot, finder)?;
    }
    Ok(())
}
