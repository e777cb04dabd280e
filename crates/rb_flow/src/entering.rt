//! Where the entry, the start and the test of a recovery block lead.

ghost use Rattle.std.specs.Prelude.{◌≡◌, ◌<◌, ◌+◌, ◌-◌, [], ◌∷◌, length, Some, None, IfOk};
ghost use Rattle.rb_code.specs.Instructions.Plain.{code as plain};
ghost use Rattle.rb_conv.specs.Conversations.{memberships, opening};
ghost use Rattle.rb_flow.specs.Held.{entry_of, operands_of, IsHeld};
ghost use Rattle.rb_flow.specs.Flow.{flow as leads};
ghost use Rattle.rb_flow.specs.Ways.{steps_of, AreHeld};
ghost use Rattle.rb_code.specs.SoundCode.Sound.{Changed};
ghost use Rattle.rb_entries.specs.Parts.{block_of};
ghost use Rattle.rb_flow.specs.Held.{blocks_of};
ghost use Rattle.rb_flow.specs.Flow.{goes};
ghost use Rattle.rb_flow.specs.Ways.{IsFlow};
ghost use Rattle.rb_code.specs.declared.instr.Instr.TheVariants.{Enter, Start, Test};
ghost use Rattle.rb_flow.specs.declared.ends.TheConstants.{MOST_INSTRUCTIONS};

use crate::lists::Lists;
use crate::rules::{
    conversation_in, is_entered, is_fresh, is_none, is_turn, may_enter, may_trap, no_loops,
    restarts_at,
};
use crate::stacks::Top;
use crate::way::{Way, when};
use rb_base::{Memory, Nested};
use rb_code::Code;
use rb_entries::entry::{Held, Mode, OpenBlock, opened};

// A block is opened.
fn put_block(
    code: &Code,
    lists: &mut Lists,
    at: u32,
    entry: Held,
    block: OpenBlock,
) -> Result<Way, Memory>
    requires held { IsHeld lists.old entry }
    requires at { at < MOST_INSTRUCTIONS }
    ensures { IfOk result (λ way. IsFlow (plain code.now) lists.old lists.new way (goes (at + 1)
        (record (entry_of lists.old entry) { operands = []; blocks = block_of block ∷ blocks_of lists.old entry.blocks; mode = Changed }))) }
{
    let empty = lists.operands.empty();
    let blocks = match lists.blocks.push(block, entry.blocks) {
        Err(_) => return Err(Memory),
        Ok(blocks) => blocks,
    };
    Ok(Way::One(
        at + 1,
        Held {
            operands: empty,
            blocks,
            mode: Mode::Changed,
            ..entry
        },
    ))
}

/// A block is entered.
pub fn enter(
    code: &Code,
    nested: &Nested,
    lists: &mut Lists,
    at: u32,
    entry: Held,
    b: u32,
) -> Result<Way, Memory>
    requires held { IsHeld lists.old entry }
    requires at { at < MOST_INSTRUCTIONS }
    ensures { IfOk result (λ way. IsFlow (plain code.now) lists.old lists.new way
        (leads (plain code.now) (memberships (opening nested.now)) (Enter b) at (entry_of lists.old entry))) }
{
    let none = is_none(&lists.operands, entry.operands);
    let restarts = restarts_at(code, b, at + 1);
    let turns = is_turn(&code.instrs, at + 1);
    let conversation = conversation_in(code, b);
    let may = may_enter(
        code,
        nested,
        &lists.blocks,
        entry.blocks,
        conversation,
        entry.within,
    );
    let all = is_fresh(entry.mode) & none & restarts & turns & may;
    if !all {
        return Ok(Way::Broken);
    }
    put_block(code, lists, at, entry, opened(entry, b))
}

/// To each alternate.
#[tactic(auto, using(crate::proofs::Chosen::chosen_leads, crate::proofs::Chosen::chosen_held, crate::proofs::Chosen::when_and))]
pub fn start(code: &Code, nested: &Nested, lists: &Lists, at: u32, entry: Held, b: u32) -> Way
    requires held { IsHeld lists.now entry }
    requires at { at < MOST_INSTRUCTIONS }
    ensures leads { steps_of (plain code.now) lists.now result
        ≡ leads (plain code.now) (memberships (opening nested.now)) (Start b) at (entry_of lists.now entry) }
    ensures held { AreHeld lists.now result }
{
    let begun = Held {
        mode: Mode::Begun,
        ..entry
    };
    let entered = is_entered(&lists.blocks, entry.blocks, b, entry.words);
    let none = is_none(&lists.operands, entry.operands);
    when(is_fresh(entry.mode) & none & entered, Way::Each(begun, b))
}

/// A block is closed.
#[tactic(auto, using(crate::proofs::Chosen::chosen_leads, crate::proofs::Chosen::chosen_held, crate::proofs::Chosen::when_and, crate::proofs::Chosen::when_none))]
pub fn test(
    code: &Code,
    nested: &Nested,
    lists: &Lists,
    at: u32,
    entry: Held,
    x: Top,
    b: u32,
) -> Way
    requires held { IsHeld lists.now entry }
    requires top { operands_of lists.now entry.operands ≡ x.top ∷ operands_of lists.now x.below }
    requires below { x.below < length lists.now.operands }
    requires at { at < MOST_INSTRUCTIONS }
    ensures leads { steps_of (plain code.now) lists.now result
        ≡ leads (plain code.now) (memberships (opening nested.now)) (Test b) at (entry_of lists.now entry) }
    ensures held { AreHeld lists.now result }
{
    match lists.operands.top(x.below) {
        Some(_) => Way::Broken,
        None => match lists.blocks.top(entry.blocks) {
            None => Way::Broken,
            Some(block) => {
                let closed = Held {
                    operands: x.below,
                    blocks: block.below,
                    mode: Mode::Changed,
                    ..entry
                };
                let same = (block.top.number == b) & (block.top.words == entry.words);
                let none = (entry.pieces == 0) & no_loops(entry.loops);
                when(may_trap(entry.mode) & none & same, Way::One(at + 1, closed))
            }
        },
    }
}
