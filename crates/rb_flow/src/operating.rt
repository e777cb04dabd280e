//! Where the instructions lead that take operands and push one.

ghost use Rattle.std.specs.Prelude.{◌<◌, ◌-◌, [], Some, None, IfOk};
ghost use Rattle.rb_code.specs.Instructions.Plain.{code as plain};
ghost use Rattle.rb_conv.specs.Conversations.{memberships, opening};
ghost use Rattle.rb_flow.specs.Held.{entry_of, IsHeld};
ghost use Rattle.rb_flow.specs.Flow.{flow as leads, takes_one as takes_a, takes_two as takes_both};
ghost use Rattle.rb_flow.specs.Ways.{IsFlow};
ghost use Rattle.rb_code.specs.declared.instr.Instr.TheVariants.{Add, Bound, LoadAt, Neg, PriorAt};
ghost use Rattle.rb_flow.specs.declared.ends.TheConstants.{MOST_INSTRUCTIONS};

use crate::lists::Lists;
use crate::pushing::put;
use crate::rules::{below_in_range, freed, may_trap, prior_in_range, words_of};
use crate::way::Way;
use rb_base::{Memory, Nested};
use rb_code::{Code, Spot};
use rb_entries::entry::Held;

/// One operand becomes a plain one.
pub fn takes_one(code: &Code, lists: &mut Lists, at: u32, entry: Held) -> Result<Way, Memory>
    requires held { IsHeld lists.old entry }
    requires at { at < MOST_INSTRUCTIONS }
    ensures { IfOk result (λ way. IsFlow (plain code.now) lists.old lists.new way
        (takes_a at (entry_of lists.old entry))) }
{
    match lists.operands.top(entry.operands) {
        None => Ok(Way::Broken),
        Some(x) => put(code, lists, at, entry, None, x.below, freed(entry.mode)),
    }
}

/// Two operands become one.
pub fn takes_two(code: &Code, lists: &mut Lists, at: u32, entry: Held) -> Result<Way, Memory>
    requires held { IsHeld lists.old entry }
    requires at { at < MOST_INSTRUCTIONS }
    ensures { IfOk result (λ way. IsFlow (plain code.now) lists.old lists.new way
        (takes_both at (entry_of lists.old entry))) }
{
    match lists.operands.top(entry.operands) {
        None => Ok(Way::Broken),
        Some(x) => match lists.operands.top(x.below) {
            None => Ok(Way::Broken),
            Some(y) => put(code, lists, at, entry, None, y.below, freed(entry.mode)),
        },
    }
}

/// An operator of two operands that may trap.
#[tactic(auto, using(crate::proofs::Chosen::refused_flow, crate::proofs::Chosen::passed_flow))]
pub fn trapping(
    code: &Code,
    nested: &Nested,
    lists: &mut Lists,
    at: u32,
    entry: Held,
) -> Result<Way, Memory>
    requires held { IsHeld lists.old entry }
    requires at { at < MOST_INSTRUCTIONS }
    ensures { IfOk result (λ way. IsFlow (plain code.now) lists.old lists.new way
        (leads (plain code.now) (memberships (opening nested.now)) Add at (entry_of lists.old entry))) }
{
    if !may_trap(entry.mode) {
        return Ok(Way::Broken);
    }
    takes_two(code, lists, at, entry)
}

/// The operator of one operand that may trap.
#[tactic(auto, using(crate::proofs::Chosen::refused_flow, crate::proofs::Chosen::passed_flow))]
pub fn negated(
    code: &Code,
    nested: &Nested,
    lists: &mut Lists,
    at: u32,
    entry: Held,
) -> Result<Way, Memory>
    requires held { IsHeld lists.old entry }
    requires at { at < MOST_INSTRUCTIONS }
    ensures { IfOk result (λ way. IsFlow (plain code.now) lists.old lists.new way
        (leads (plain code.now) (memberships (opening nested.now)) Neg at (entry_of lists.old entry))) }
{
    if !may_trap(entry.mode) {
        return Ok(Way::Broken);
    }
    takes_one(code, lists, at, entry)
}

/// The top is below a number from here on.
#[tactic(auto, using(crate::proofs::Chosen::refused_flow, crate::proofs::Chosen::passed_flow))]
pub fn bound(
    code: &Code,
    nested: &Nested,
    lists: &mut Lists,
    at: u32,
    entry: Held,
    n: u32,
) -> Result<Way, Memory>
    requires held { IsHeld lists.old entry }
    requires at { at < MOST_INSTRUCTIONS }
    ensures { IfOk result (λ way. IsFlow (plain code.now) lists.old lists.new way
        (leads (plain code.now) (memberships (opening nested.now)) (Bound n) at (entry_of lists.old entry))) }
{
    if !may_trap(entry.mode) {
        return Ok(Way::Broken);
    }
    match lists.operands.top(entry.operands) {
        None => Ok(Way::Broken),
        Some(x) => put(code, lists, at, entry, Some(n), x.below, freed(entry.mode)),
    }
}

/// An index becomes the word so far behind a place.
#[tactic(auto, using(crate::proofs::Chosen::refused_flow, crate::proofs::Chosen::passed_flow))]
pub fn load_at(
    code: &Code,
    nested: &Nested,
    lists: &mut Lists,
    at: u32,
    entry: Held,
    v: Spot,
) -> Result<Way, Memory>
    requires held { IsHeld lists.old entry }
    requires at { at < MOST_INSTRUCTIONS }
    ensures { IfOk result (λ way. IsFlow (plain code.now) lists.old lists.new way
        (leads (plain code.now) (memberships (opening nested.now)) (LoadAt v) at (entry_of lists.old entry))) }
{
    match lists.operands.top(entry.operands) {
        None => Ok(Way::Broken),
        Some(x) => {
            let globals = words_of(code, entry.within.process);
            if !below_in_range(globals, entry.words, v, x.top) {
                return Ok(Way::Broken);
            }
            put(code, lists, at, entry, None, x.below, freed(entry.mode))
        }
    }
}

/// The same in the innermost block's copy.
#[tactic(auto, using(crate::proofs::Chosen::refused_flow, crate::proofs::Chosen::passed_flow))]
pub fn prior_at(
    code: &Code,
    nested: &Nested,
    lists: &mut Lists,
    at: u32,
    entry: Held,
    v: Spot,
) -> Result<Way, Memory>
    requires held { IsHeld lists.old entry }
    requires at { at < MOST_INSTRUCTIONS }
    ensures { IfOk result (λ way. IsFlow (plain code.now) lists.old lists.new way
        (leads (plain code.now) (memberships (opening nested.now)) (PriorAt v) at (entry_of lists.old entry))) }
{
    match lists.operands.top(entry.operands) {
        None => Ok(Way::Broken),
        Some(x) => {
            let globals = words_of(code, entry.within.process);
            if !prior_in_range(globals, &lists.blocks, entry.blocks, v, x.top) {
                return Ok(Way::Broken);
            }
            put(code, lists, at, entry, None, x.below, freed(entry.mode))
        }
    }
}
