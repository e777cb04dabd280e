//! Where the instructions lead that push an operand and take none.

ghost use Rattle.std.specs.Prelude.{◌<◌, ◌+◌, ◌-◌, [], ◌∷◌, length, Option, Some, None, IfOk};
ghost use Rattle.rb_code.specs.Instructions.Plain.{code as plain};
ghost use Rattle.rb_code.specs.SoundCode.Sound.{Changed};
ghost use Rattle.rb_conv.specs.Conversations.{memberships, opening};
ghost use Rattle.rb_entries.specs.Parts.{mode_of};
ghost use Rattle.rb_flow.specs.Held.{entry_of, operands_of, IsHeld};
ghost use Rattle.rb_flow.specs.Flow.{flow as leads, goes, pushes as puts_one};
ghost use Rattle.rb_flow.specs.Ways.{IsFlow};
ghost use Rattle.rb_code.specs.declared.instr.Instr.TheVariants.{Counter, Load, Prior, Take};
ghost use Rattle.rb_flow.specs.declared.ends.TheConstants.{MOST_INSTRUCTIONS};

use crate::lists::Lists;
use crate::rules::{freed, in_range, is_set, may_take, prior_in_range, words_of};
use crate::way::Way;
use rb_base::limits::MOST_OPERANDS;
use rb_base::{Memory, Nested};
use rb_code::{Code, Spot};
use rb_entries::entry::{Held, Mode};

/// An operand is put on the operands of number `below`.
pub fn put(
    code: &Code,
    lists: &mut Lists,
    at: u32,
    entry: Held,
    top: Option<u32>,
    below: u32,
    mode: Mode,
) -> Result<Way, Memory>
    requires held { IsHeld lists.old entry }
    requires below { below < length lists.old.operands }
    requires at { at < MOST_INSTRUCTIONS }
    ensures { IfOk result (λ way. IsFlow (plain code.now) lists.old lists.new way
        (goes (at + 1) (record (entry_of lists.old entry) { operands = top ∷ operands_of lists.old below; mode = mode_of mode }))) }
{
    let operands = match lists.operands.push(top, below) {
        Err(_) => return Err(Memory),
        Ok(operands) => operands,
    };
    Ok(Way::One(
        at + 1,
        Held {
            operands,
            mode,
            ..entry
        },
    ))
}

/// One operand more.
pub fn pushes(code: &Code, lists: &mut Lists, at: u32, entry: Held) -> Result<Way, Memory>
    requires held { IsHeld lists.old entry }
    requires at { at < MOST_INSTRUCTIONS }
    ensures { IfOk result (λ way. IsFlow (plain code.now) lists.old lists.new way
        (puts_one at (entry_of lists.old entry))) }
{
    if lists.operands.length(entry.operands) as usize >= MOST_OPERANDS {
        return Ok(Way::Broken);
    }
    put(
        code,
        lists,
        at,
        entry,
        None,
        entry.operands,
        freed(entry.mode),
    )
}

/// A word is pushed.
#[tactic(auto, using(crate::proofs::Chosen::refused_flow, crate::proofs::Chosen::passed_flow))]
pub fn load(
    code: &Code,
    nested: &Nested,
    lists: &mut Lists,
    at: u32,
    entry: Held,
    v: Spot,
) -> Result<Way, Memory>
    requires held { IsHeld lists.old entry }
    requires at { at < MOST_INSTRUCTIONS }
    ensures { IfOk result (λ way. IsFlow (plain code.now) lists.old lists.new way
        (leads (plain code.now) (memberships (opening nested.now)) (Load v) at (entry_of lists.old entry))) }
{
    let globals = words_of(code, entry.within.process);
    if !in_range(globals, entry.words, v, 1) {
        return Ok(Way::Broken);
    }
    pushes(code, lists, at, entry)
}

/// A word of the innermost block's copy is pushed.
#[tactic(auto, using(crate::proofs::Chosen::refused_flow, crate::proofs::Chosen::passed_flow))]
pub fn prior(
    code: &Code,
    nested: &Nested,
    lists: &mut Lists,
    at: u32,
    entry: Held,
    v: Spot,
) -> Result<Way, Memory>
    requires held { IsHeld lists.old entry }
    requires at { at < MOST_INSTRUCTIONS }
    ensures { IfOk result (λ way. IsFlow (plain code.now) lists.old lists.new way
        (leads (plain code.now) (memberships (opening nested.now)) (Prior v) at (entry_of lists.old entry))) }
{
    let globals = words_of(code, entry.within.process);
    if !prior_in_range(globals, &lists.blocks, entry.blocks, v, Some(1)) {
        return Ok(Way::Broken);
    }
    pushes(code, lists, at, entry)
}

/// A counter is pushed.
#[tactic(auto, using(crate::proofs::Chosen::refused_flow, crate::proofs::Chosen::passed_flow))]
pub fn counter(
    code: &Code,
    nested: &Nested,
    lists: &mut Lists,
    at: u32,
    entry: Held,
    k: u32,
) -> Result<Way, Memory>
    requires held { IsHeld lists.old entry }
    requires at { at < MOST_INSTRUCTIONS }
    ensures { IfOk result (λ way. IsFlow (plain code.now) lists.old lists.new way
        (leads (plain code.now) (memberships (opening nested.now)) (Counter k) at (entry_of lists.old entry))) }
{
    if !is_set(k, entry.loops) {
        return Ok(Way::Broken);
    }
    pushes(code, lists, at, entry)
}

/// A message is pushed.
#[tactic(auto, using(crate::proofs::Chosen::refused_flow, crate::proofs::Chosen::passed_flow))]
pub fn take(
    code: &Code,
    nested: &Nested,
    lists: &mut Lists,
    at: u32,
    entry: Held,
    channel: u32,
) -> Result<Way, Memory>
    requires held { IsHeld lists.old entry }
    requires at { at < MOST_INSTRUCTIONS }
    ensures { IfOk result (λ way. IsFlow (plain code.now) lists.old lists.new way
        (leads (plain code.now) (memberships (opening nested.now)) (Take channel) at (entry_of lists.old entry))) }
{
    if !may_take(channel, entry.mode) {
        return Ok(Way::Broken);
    }
    if lists.operands.length(entry.operands) as usize >= MOST_OPERANDS {
        return Ok(Way::Broken);
    }
    put(code, lists, at, entry, None, entry.operands, Mode::Changed)
}
