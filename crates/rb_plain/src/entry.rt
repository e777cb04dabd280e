//! The entry of a recovery block: a level is opened.

ghost use Rattle.std.specs.Prelude.{◌≡◌, length, map, IfOk};
ghost use Rattle.rb_syntax.specs.Plain.{recovery_block, tree};
ghost use Rattle.rb_syntax.specs.Tree.{Recovering};
ghost use Rattle.rb_meaning.specs.Groups.{facts_of};
ghost use Rattle.rb_meaning.specs.PlainRun.{entry_point};
ghost use Rattle.rb_meaning.specs.State.{Perform};
ghost use Rattle.rb_walk.specs.Items.{StandsFirst};
ghost use Rattle.rb_walk.specs.States.{state_of};
ghost use Rattle.rb_levels.specs.Moves.{entered_by, Becomes, IsReady};
ghost use Rattle.rb_levels.specs.Worlds.{facts_with, level_of, process_of};

use rb_base::{MOST_OPEN_LEVELS, Memory};
use rb_levels::{Level, Process};
use rb_meaning::numbers::conversation_number;
use rb_syntax::{Program, Recovery};
use rb_walk::{Halt, State};
use std::alloc::Global;

/// Enters the recovery block that stands first in a process: a level is opened, where fewer than the most are open.
pub(crate) fn enter<'t, 'a>(
    alloc: Global,
    program: &Program<'a>,
    process: &mut Process<'t, 'a>,
    block: &'t Recovery<'a>,
) -> Result<(), Halt>
    requires first { StandsFirst (Perform (Recovering (recovery_block block.now))) (state_of process.old.state).items }
    requires ready { IsReady process.old }
    ensures { Becomes (entered_by (tree program.now) (recovery_block block.now) (process_of process.old)) (process_of process.new) result }
{
    if process.levels.len() >= MOST_OPEN_LEVELS as usize {
        return Err(Halt::Stuck);
    }
    process.state.enter(block)?;
    let conversation = conversation_of(program, block);
    let level = opened(alloc, block, conversation, &process.state)?;
    process.levels.push(level)?;
    Ok(())
}

// A level that is opened in this state.
fn opened<'t, 'a>(
    alloc: Global,
    block: &'t Recovery<'a>,
    conversation: Option<usize>,
    state: &State<'t, 'a>,
) -> Result<Level<'t, 'a>, Memory>
    ensures { IfOk result (λ level. level_of level ≡
        record { facts = facts_with conversation (recovery_block block.now); alternate = 0; used = 0; copy = entry_point (state_of state.now) }) }
{
    let sent = lengths_of(alloc, state.sent.as_slice())?;
    let taken = Vec::from_slice(alloc, state.taken.as_slice())?;
    let environment = state.environment.copied(alloc)?;
    Ok(Level {
        block,
        conversation,
        sent,
        taken,
        environment,
    })
}

// How many values each of these lists has.
fn lengths_of(alloc: Global, lists: &[Vec<i64>]) -> Result<Vec<usize>, Memory>
    ensures { IfOk result (λ lengths. lengths.items ≡ map length (map (λ values. values.items) lists.now)) }
{
    let mut lengths = Vec::with_capacity(alloc, lists.len())?;
    for values in lists {
        lengths.push_reserved(values.len());
    }
    Ok(lengths)
}

// The number of a recovery block's conversation, if it has one.
fn conversation_of(program: &Program<'_>, block: &Recovery<'_>) -> Option<usize>
    ensures { facts_with result (recovery_block block.now) ≡ facts_of (tree program.now) (recovery_block block.now) }
{
    match &block.conversation {
        Some(name) => Some(conversation_number(program, name.text)),
        None => None,
    }
}
