//! Where the instructions lead that take operands and push none.

ghost use Rattle.std.specs.Prelude.{◌≡◌, ◌<◌, ◌+◌, ◌-◌, [], ◌∷◌, length, Option, Some, None, IfOk, IfSome};
ghost use Rattle.rb_code.specs.Instructions.Plain.{code as plain};
ghost use Rattle.rb_conv.specs.Conversations.{memberships, opening};
ghost use Rattle.rb_flow.specs.Held.{entry_of, operands_of, IsHeld};
ghost use Rattle.rb_flow.specs.Flow.{flow as leads};
ghost use Rattle.rb_flow.specs.Ways.{steps_of, AreHeld};
ghost use Rattle.rb_entries.specs.Parts.{loop_of, loops_of};
ghost use Rattle.rb_flow.specs.Ends.{AreEnds};
ghost use Rattle.rb_code.specs.declared.instr.Instr.TheVariants.{Item, JumpZero, Put, Range, Store, StoreAt};
ghost use Rattle.rb_flow.specs.declared.ends.TheConstants.{MOST_INSTRUCTIONS};

use crate::ends::{Ends, end_of};
use crate::lists::Lists;
use crate::rules::{
    below_in_range, freed, in_range, is_ahead, is_set, may_put, may_trap, words_of,
};
use crate::stacks::Top;
use crate::way::{Way, when};
use rb_base::limits::MOST_ITEMS;
use rb_base::{Memory, Nested};
use rb_code::{Code, Spot};
use rb_entries::entry::{Held, Loop, Loops, Mode};

/// A value goes into a word.
#[tactic(auto, using(crate::proofs::Chosen::chosen_leads, crate::proofs::Chosen::chosen_held))]
pub fn store(
    code: &Code,
    nested: &Nested,
    lists: &Lists,
    at: u32,
    entry: Held,
    x: Top,
    v: Spot,
) -> Way
    requires held { IsHeld lists.now entry }
    requires top { operands_of lists.now entry.operands ≡ x.top ∷ operands_of lists.now x.below }
    requires below { x.below < length lists.now.operands }
    requires at { at < MOST_INSTRUCTIONS }
    ensures leads { steps_of (plain code.now) lists.now result
        ≡ leads (plain code.now) (memberships (opening nested.now)) (Store v) at (entry_of lists.now entry) }
    ensures held { AreHeld lists.now result }
{
    let way = Way::One(
        at + 1,
        Held {
            operands: x.below,
            mode: Mode::Changed,
            ..entry
        },
    );
    when(
        in_range(words_of(code, entry.within.process), entry.words, v, 1),
        way,
    )
}

/// A value goes into the word so far behind a place.
#[tactic(auto, using(crate::proofs::Chosen::chosen_leads, crate::proofs::Chosen::chosen_held))]
pub fn store_at(
    code: &Code,
    nested: &Nested,
    lists: &Lists,
    at: u32,
    entry: Held,
    x: Top,
    v: Spot,
) -> Way
    requires held { IsHeld lists.now entry }
    requires top { operands_of lists.now entry.operands ≡ x.top ∷ operands_of lists.now x.below }
    requires below { x.below < length lists.now.operands }
    requires at { at < MOST_INSTRUCTIONS }
    ensures leads { steps_of (plain code.now) lists.now result
        ≡ leads (plain code.now) (memberships (opening nested.now)) (StoreAt v) at (entry_of lists.now entry) }
    ensures held { AreHeld lists.now result }
{
    let y = match lists.operands.top(x.below) {
        None => return Way::Broken,
        Some(y) => y,
    };
    let way = Way::One(
        at + 1,
        Held {
            operands: y.below,
            mode: Mode::Changed,
            ..entry
        },
    );
    when(
        below_in_range(words_of(code, entry.within.process), entry.words, v, y.top),
        way,
    )
}

/// To an address, or on.
#[tactic(auto, using(crate::proofs::Chosen::chosen_leads, crate::proofs::Chosen::chosen_held))]
pub fn jump_zero(
    code: &Code,
    nested: &Nested,
    lists: &Lists,
    at: u32,
    entry: Held,
    x: Top,
    b: u32,
) -> Way
    requires held { IsHeld lists.now entry }
    requires top { operands_of lists.now entry.operands ≡ x.top ∷ operands_of lists.now x.below }
    requires below { x.below < length lists.now.operands }
    requires at { at < MOST_INSTRUCTIONS }
    ensures leads { steps_of (plain code.now) lists.now result
        ≡ leads (plain code.now) (memberships (opening nested.now)) (JumpZero b) at (entry_of lists.now entry) }
    ensures held { AreHeld lists.now result }
{
    let held = Held {
        operands: x.below,
        mode: freed(entry.mode),
        ..entry
    };
    let way = Way::Two(b, held, at + 1, held);
    when(is_ahead(code, at, b), way)
}

/// A piece of the line that is a number.
#[tactic(auto, using(crate::proofs::Chosen::chosen_leads, crate::proofs::Chosen::chosen_held))]
pub fn item(code: &Code, nested: &Nested, lists: &Lists, at: u32, entry: Held, x: Top) -> Way
    requires held { IsHeld lists.now entry }
    requires top { operands_of lists.now entry.operands ≡ x.top ∷ operands_of lists.now x.below }
    requires below { x.below < length lists.now.operands }
    requires at { at < MOST_INSTRUCTIONS }
    ensures leads { steps_of (plain code.now) lists.now result
        ≡ leads (plain code.now) (memberships (opening nested.now)) Item at (entry_of lists.now entry) }
    ensures held { AreHeld lists.now result }
{
    if entry.pieces as usize >= MOST_ITEMS {
        return Way::Broken;
    }
    Way::One(
        at + 1,
        Held {
            operands: x.below,
            pieces: entry.pieces + 1,
            mode: freed(entry.mode),
            ..entry
        },
    )
}

/// A message is put.
#[tactic(auto, using(crate::proofs::Chosen::chosen_leads, crate::proofs::Chosen::chosen_held))]
pub fn put_message(
    code: &Code,
    nested: &Nested,
    lists: &Lists,
    at: u32,
    entry: Held,
    x: Top,
    channel: u32,
) -> Way
    requires held { IsHeld lists.now entry }
    requires top { operands_of lists.now entry.operands ≡ x.top ∷ operands_of lists.now x.below }
    requires below { x.below < length lists.now.operands }
    requires at { at < MOST_INSTRUCTIONS }
    ensures leads { steps_of (plain code.now) lists.now result
        ≡ leads (plain code.now) (memberships (opening nested.now)) (Put channel) at (entry_of lists.now entry) }
    ensures held { AreHeld lists.now result }
{
    let way = Way::One(
        at + 1,
        Held {
            operands: x.below,
            mode: Mode::Changed,
            ..entry
        },
    );
    when(may_put(channel, entry.mode), way)
}

/// A loop begins, or is passed.
#[tactic(auto, using(crate::proofs::Chosen::chosen_leads, crate::proofs::Chosen::chosen_held, crate::proofs::Chosen::when_and, crate::proofs::Chosen::when_none))]
pub fn range(
    code: &Code,
    nested: &Nested,
    ends: &Ends,
    lists: &Lists,
    at: u32,
    entry: Held,
    x: Top,
    k: u32,
    b: u32,
) -> Result<Way, Memory>
    requires ends { AreEnds (plain code.now) ends.now }
    requires held { IsHeld lists.now entry }
    requires top { operands_of lists.now entry.operands ≡ x.top ∷ operands_of lists.now x.below }
    requires below { x.below < length lists.now.operands }
    requires at { at < MOST_INSTRUCTIONS }
    ensures leads { IfOk result (λ way. steps_of (plain code.now) lists.now way
        ≡ leads (plain code.now) (memberships (opening nested.now)) (Range k b) at (entry_of lists.now entry)) }
    ensures held { IfOk result (λ way. AreHeld lists.now way) }
{
    if k >= 2 {
        return Ok(Way::Broken);
    }
    let y = match lists.operands.top(x.below) {
        None => return Ok(Way::Broken),
        Some(y) => y,
    };
    let last = match end_of(code, ends, k, at + 1) {
        None => return Ok(Way::Broken),
        Some(last) => last,
    };
    let may = may_trap(entry.mode) & !is_set(k, entry.loops) & is_ahead(code, at, b);
    if !may {
        return Ok(Way::Broken);
    }
    let past = Held {
        operands: y.below,
        mode: freed(entry.mode),
        ..entry
    };
    let inner = Loop {
        counter: k,
        first: at + 1,
        last,
    };
    match deeper(entry.loops, inner) {
        None => Err(Memory),
        Some(loops) => Ok(Way::Two(b, past, at + 1, Held { loops, ..past })),
    }
}

// One loop more inside others, if these are not two.
fn deeper(loops: Loops, inner: Loop) -> Option<Loops>
    ensures { IfSome result (λ more. loops_of more ≡ loop_of inner ∷ loops_of loops) }
{
    match loops {
        Loops::Zero => Some(Loops::One(inner)),
        Loops::One(x) => Some(Loops::Two(inner, x)),
        Loops::Two(_, _) => None,
    }
}
