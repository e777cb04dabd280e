//! The places of all turns of a program, in the order of their code.

ghost use Rattle.std.specs.Prelude.{◌≡◌, [], ◌∷◌, ◌++◌, map, OnOk, IfOk};
ghost use Rattle.rb_syntax.specs.Plain.{alternates_of, body, command, commands_of, otherwise, procedure_declaration, process_declaration, recovery_block, tree};
ghost use Rattle.rb_code.specs.Agreement.Places.{alternates_turns, body_turns, command_turns, commands_turns, otherwise_turns, procedures_turns, processes_turns, recovery_turns};

use crate::place::place_of;
use rb_base::{Memory, Place};
use rb_syntax::{Block, Procedure, Process, Program, Recovery, Statement};
use std::alloc::Global;

/// The places of all turns of a program.
#[tactic(auto, using(crate::proofs::InTurn::walks))]
pub fn places_of_turns(alloc: Global, program: &Program<'_>) -> Result<Vec<Option<Place>>, Memory>
    ensures { IfOk result (λ turns. turns.items ≡ processes_turns (map process_declaration program.now.processes.items)) }
{
    let mut turns = Vec::new(alloc);
    add_processes(&mut turns, &program.processes)?;
    Ok(turns)
}

/// Adds those of processes.
#[tactic(auto, using(crate::proofs::InTurn::walks))]
fn add_processes(turns: &mut Vec<Option<Place>>, processes: &[Process<'_>]) -> Result<(), Memory>
    ensures { OnOk result (turns.new.items ≡ turns.old.items ++ processes_turns (map process_declaration processes.now)) }
{
    for process in processes {
        add_statements(turns, &process.body)?;
        add_procedures(turns, &process.procedures)?;
    }
    Ok(())
}

/// Adds those of procedures.
#[tactic(auto, using(crate::proofs::InTurn::walks))]
fn add_procedures(
    turns: &mut Vec<Option<Place>>,
    procedures: &[Procedure<'_>],
) -> Result<(), Memory>
    ensures { OnOk result (turns.new.items ≡ turns.old.items ++ procedures_turns (map procedure_declaration procedures.now)) }
{
    for procedure in procedures {
        add_block(turns, &procedure.block)?;
    }
    Ok(())
}

/// Adds those of statements.
#[cycle(statement)]
#[tactic(auto, using(rb_syntax::proofs::Bridge::trees, crate::proofs::InTurn::walks))]
fn add_statements(
    turns: &mut Vec<Option<Place>>,
    statements: &[Statement<'_>],
) -> Result<(), Memory>
    ensures { OnOk result (turns.new.items ≡ turns.old.items ++ commands_turns (commands_of statements.now)) }
{
    for statement in statements {
        add_statement(turns, statement)?;
    }
    Ok(())
}

/// Adds those of a statement.
#[cycle(statement)]
#[tactic(auto, using(rb_syntax::proofs::Bridge::trees, crate::proofs::InTurn::walks))]
fn add_statement(turns: &mut Vec<Option<Place>>, statement: &Statement<'_>) -> Result<(), Memory>
    ensures { OnOk result (turns.new.items ≡ turns.old.items ++ command_turns (command statement.now)) }
{
    let place = place_of(statement);
    match statement {
        Statement::Assign(_, _) => add_place(turns, place),
        Statement::Print(_) => add_place(turns, place),
        Statement::Send(_, _) => add_place(turns, place),
        Statement::Receive(_, _, other) => {
            add_place(turns, place)?;
            add_otherwise(turns, other)
        }
        Statement::If(_, block, other) => {
            add_place(turns, place)?;
            add_block(turns, block)?;
            add_otherwise(turns, other)
        }
        Statement::While(_, block) => {
            add_place(turns, place)?;
            add_block(turns, block)
        }
        Statement::Call(_, _) => add_place(turns, place),
        Statement::Fail => add_place(turns, place),
        Statement::Recover(recovery) => add_recovery(turns, recovery),
    }
}

/// Adds one place.
fn add_place(turns: &mut Vec<Option<Place>>, place: Option<Place>) -> Result<(), Memory>
    ensures { OnOk result (turns.new.items ≡ turns.old.items ++ place ∷ []) }
{
    turns.push(place)?;
    Ok(())
}

/// Adds those of a block.
#[cycle(statement)]
#[tactic(auto, using(rb_syntax::proofs::Bridge::trees, crate::proofs::InTurn::walks))]
fn add_block(turns: &mut Vec<Option<Place>>, block: &Block<'_>) -> Result<(), Memory>
    ensures { OnOk result (turns.new.items ≡ turns.old.items ++ body_turns (body block.now)) }
{
    add_statements(turns, &block.body)
}

/// Adds those of an `else`, if there is one.
#[cycle(statement)]
#[tactic(auto, using(rb_syntax::proofs::Bridge::trees, crate::proofs::InTurn::walks))]
fn add_otherwise(turns: &mut Vec<Option<Place>>, other: &Option<Block<'_>>) -> Result<(), Memory>
    ensures { OnOk result (turns.new.items ≡ turns.old.items ++ otherwise_turns (otherwise other.now)) }
{
    match other {
        Some(block) => add_block(turns, block),
        None => Ok(()),
    }
}

/// Adds those of a recovery block: of its entry and of a start, of its alternates, and of its acceptance test.
#[cycle(statement)]
#[tactic(auto, using(rb_syntax::proofs::Bridge::trees, crate::proofs::InTurn::walks))]
fn add_recovery(turns: &mut Vec<Option<Place>>, recovery: &Recovery<'_>) -> Result<(), Memory>
    ensures { OnOk result (turns.new.items ≡ turns.old.items ++ recovery_turns (recovery_block recovery.now)) }
{
    add_place(turns, Some(recovery.place))?;
    add_place(turns, Some(recovery.place))?;
    add_alternates(turns, &recovery.alternates)?;
    add_place(turns, Some(recovery.place))
}

/// Adds those of alternates.
#[cycle(statement)]
#[tactic(auto, using(rb_syntax::proofs::Bridge::trees, crate::proofs::InTurn::walks))]
fn add_alternates(turns: &mut Vec<Option<Place>>, alternates: &[Block<'_>]) -> Result<(), Memory>
    ensures { OnOk result (turns.new.items ≡ turns.old.items ++ alternates_turns (alternates_of alternates.now)) }
{
    for block in alternates {
        add_block(turns, block)?;
    }
    Ok(())
}
