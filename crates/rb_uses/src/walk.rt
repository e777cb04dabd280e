//! The uses in a statement.

ghost use Rattle.std.specs.Prelude.{◌≡◌, false, [], ◌∷◌, option_map, IfOk, OnOk};
ghost use Rattle.rb_syntax.specs.Plain.{alternates_of, body as plain_body, command, commands_of, identifier, otherwise as plain_otherwise, recovery_block, tree};
ghost use Rattle.rb_meaning.specs.Groups.{conversation_of};
ghost use Rattle.rb_meaning.specs.Nesting.{joined, uses_in, uses_in_alternates, uses_in_block, uses_in_body, uses_in_command, uses_in_otherwise};
ghost use Rattle.rb_uses.specs.Memory.{Adds, deed_of, spot_of};
ghost use Rattle.rb_uses.specs.Summary.{is_join};

use crate::spot::Spot;
use crate::usage::{Deed, Use};
use rb_base::Memory;
use rb_meaning::numbers::{channel_number, conversation_number};
use rb_nest::{Blocks, Joined};
use rb_syntax::{Block, Name, Recovery, Statement};

/// Adds the uses in a statement.
#[cycle(statement)]
#[tactic(auto, using(rb_syntax::proofs::Bridge::trees, crate::proofs::InTurn::walks))]
fn uses_in_statement<'a>(
    statement: &Statement<'a>,
    spot: &Spot<'_, 'a>,
    uses: &mut Vec<Use<'a>>,
) -> Result<(), Memory>
    ensures { OnOk result (Adds spot.now uses.old.items uses.new.items (uses_in_command (spot_of spot.now) (command statement.now))) }
{
    match statement {
        Statement::Assign(_, _) => Ok(()),
        Statement::Print(_) => Ok(()),
        Statement::Send(channel, _) => add_message(*channel, Deed::Sends, spot, uses),
        Statement::Receive(channel, _, otherwise) => {
            add_message(*channel, Deed::Receives, spot, uses)?;
            uses_in_otherwise(otherwise, spot, uses)
        }
        Statement::If(_, block, otherwise) => {
            uses_in_block(block, spot, uses)?;
            uses_in_otherwise(otherwise, spot, uses)
        }
        Statement::While(_, block) => uses_in_block(block, spot, uses),
        Statement::Call(_, _) => Ok(()),
        Statement::Fail => Ok(()),
        Statement::Recover(recovery) => uses_in_recovery(recovery, spot, uses),
    }
}

/// Adds the uses in statements in order.
#[cycle(statement)]
#[tactic(auto, using(rb_syntax::proofs::Bridge::trees, crate::proofs::InTurn::walks))]
pub(crate) fn uses_in_statements<'a>(
    statements: &[Statement<'a>],
    spot: &Spot<'_, 'a>,
    uses: &mut Vec<Use<'a>>,
) -> Result<(), Memory>
    ensures { OnOk result (Adds spot.now uses.old.items uses.new.items (uses_in (spot_of spot.now) (commands_of statements.now))) }
{
    for statement in statements {
        uses_in_statement(statement, spot, uses)?;
    }
    Ok(())
}

/// Adds the uses in a block.
#[cycle(statement)]
#[tactic(auto, using(rb_syntax::proofs::Bridge::trees, crate::proofs::InTurn::walks))]
pub(crate) fn uses_in_block<'a>(
    block: &Block<'a>,
    spot: &Spot<'_, 'a>,
    uses: &mut Vec<Use<'a>>,
) -> Result<(), Memory>
    ensures { OnOk result (Adds spot.now uses.old.items uses.new.items (uses_in_body (spot_of spot.now) (plain_body block.now))) }
{
    uses_in_statements(&block.body, spot, uses)
}

/// Adds the uses in an `else`, if there is one.
#[cycle(statement)]
#[tactic(auto, using(rb_syntax::proofs::Bridge::trees, crate::proofs::InTurn::walks))]
fn uses_in_otherwise<'a>(
    otherwise: &Option<Block<'a>>,
    spot: &Spot<'_, 'a>,
    uses: &mut Vec<Use<'a>>,
) -> Result<(), Memory>
    ensures { OnOk result (Adds spot.now uses.old.items uses.new.items (uses_in_otherwise (spot_of spot.now) (plain_otherwise otherwise.now))) }
{
    match otherwise {
        None => Ok(()),
        Some(block) => uses_in_block(block, spot, uses),
    }
}

/// Adds the uses in a recovery block, which may itself be a `converse`.
#[cycle(statement)]
#[tactic(auto, using(rb_syntax::proofs::Bridge::trees, crate::proofs::InTurn::walks))]
fn uses_in_recovery<'a>(
    recovery: &Recovery<'a>,
    spot: &Spot<'_, 'a>,
    uses: &mut Vec<Use<'a>>,
) -> Result<(), Memory>
    ensures { OnOk result (Adds spot.now uses.old.items uses.new.items (uses_in_block (spot_of spot.now) (recovery_block recovery.now))) }
{
    let joined = add_join(recovery.conversation, &recovery.alternates, spot, uses)?;
    let around = Blocks::Within(joined, spot.around);
    let inside = Spot {
        program: spot.program,
        process: spot.process,
        in_procedure: spot.in_procedure,
        around: &around,
    };
    uses_in_alternates(&recovery.alternates, &inside, uses)
}

/// Adds the uses in alternates in order.
#[cycle(statement)]
#[tactic(auto, using(rb_syntax::proofs::Bridge::trees, crate::proofs::InTurn::walks))]
fn uses_in_alternates<'a>(
    alternates: &[Block<'a>],
    spot: &Spot<'_, 'a>,
    uses: &mut Vec<Use<'a>>,
) -> Result<(), Memory>
    ensures { OnOk result (Adds spot.now uses.old.items uses.new.items (uses_in_alternates (spot_of spot.now) (alternates_of alternates.now))) }
{
    for block in alternates {
        uses_in_block(block, spot, uses)?;
    }
    Ok(())
}

/// Adds a message.
fn add_message<'a>(
    channel: Name<'a>,
    deed: Deed,
    spot: &Spot<'_, 'a>,
    uses: &mut Vec<Use<'a>>,
) -> Result<(), Memory>
    requires { is_join (deed_of deed) ≡ false }
    ensures { OnOk result
        (Adds spot.now uses.old.items uses.new.items
        (record { name = identifier channel.entry; deed = deed_of deed; spot = spot_of spot.now } ∷ [])) }
{
    let number = channel_number(spot.program, channel.text);
    uses.push(spot.use_of(channel, number, deed))?;
    Ok(())
}

/// Adds the use of a conversation, if one is joined, and answers it with its number.
fn add_join<'a>(
    conversation: Option<Name<'a>>,
    alternates: &[Block<'a>],
    spot: &Spot<'_, 'a>,
    uses: &mut Vec<Use<'a>>,
) -> Result<Option<Joined<'a>>, Memory>
    ensures added { OnOk result
        (Adds spot.now uses.old.items uses.new.items
        (joined (option_map identifier conversation.entry) (alternates_of alternates.now) (spot_of spot.now))) }
    ensures name { IfOk result (λ one. option_map (λ j. identifier j.name) one ≡ option_map identifier conversation.entry) }
    ensures number { IfOk result
        (λ one. option_map (λ j. j.number) one ≡ conversation_of (tree spot.now.program.now) (option_map identifier conversation.entry)) }
{
    match conversation {
        None => Ok(None),
        Some(name) => {
            let number = conversation_number(spot.program, name.text);
            let deed = Deed::Joins(alternates.len());
            uses.push(spot.use_of(name, number, deed))?;
            Ok(Some(Joined { name, number }))
        }
    }
}
