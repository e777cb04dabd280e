//! Where the instructions lead that touch no operand.

ghost use Rattle.std.specs.Prelude.{◌≡◌, ◌<◌, ◌+◌, ◌-◌, [], length, Some, None, IfOk};
ghost use Rattle.rb_code.specs.Instructions.Plain.{code as plain};
ghost use Rattle.rb_conv.specs.Conversations.{memberships, opening};
ghost use Rattle.rb_flow.specs.Held.{entry_of, IsHeld};
ghost use Rattle.rb_flow.specs.Flow.{flow as leads};
ghost use Rattle.rb_flow.specs.Ends.{AreEnds};
ghost use Rattle.rb_flow.specs.Ways.{steps_of, AreHeld};
ghost use Rattle.rb_code.specs.declared.instr.Instr.TheVariants.{Absent, Again, Call, Done, Drop, Fail, Frame, Jump, Print, Return, Room, Text, There, Turn};
ghost use Rattle.rb_flow.specs.declared.ends.TheConstants.{MOST_INSTRUCTIONS};

use crate::ends::{Ends, is_procedure};
use crate::lists::Lists;
use crate::rules::{
    freed, is_above, is_ahead, is_fresh, is_loop, is_main, is_none, is_receiver, is_sender,
    is_text, may_frame, may_trap, no_blocks, no_loops,
};
use crate::way::{Way, when};
use rb_base::limits::MOST_ITEMS;
use rb_base::{Memory, Nested};
use rb_code::Code;
use rb_entries::entry::{Held, Loops, Mode, Within};

/// A turn begins.
#[tactic(auto, using(crate::proofs::Chosen::chosen_leads, crate::proofs::Chosen::chosen_held, crate::proofs::Chosen::when_and))]
pub fn turn(code: &Code, nested: &Nested, lists: &Lists, at: u32, entry: Held) -> Way
    requires held { IsHeld lists.now entry }
    requires at { at < MOST_INSTRUCTIONS }
    ensures leads { steps_of (plain code.now) lists.now result
        ≡ leads (plain code.now) (memberships (opening nested.now)) Turn at (entry_of lists.now entry) }
    ensures held { AreHeld lists.now result }
{
    let way = Way::One(
        at + 1,
        Held {
            mode: Mode::Fresh,
            ..entry
        },
    );
    let none = is_none(&lists.operands, entry.operands);
    when(none & (entry.pieces == 0) & no_loops(entry.loops), way)
}

/// To an address.
#[tactic(auto, using(crate::proofs::Chosen::chosen_leads, crate::proofs::Chosen::chosen_held))]
pub fn jump(code: &Code, nested: &Nested, lists: &Lists, at: u32, entry: Held, b: u32) -> Way
    requires held { IsHeld lists.now entry }
    requires at { at < MOST_INSTRUCTIONS }
    ensures leads { steps_of (plain code.now) lists.now result
        ≡ leads (plain code.now) (memberships (opening nested.now)) (Jump b) at (entry_of lists.now entry) }
    ensures held { AreHeld lists.now result }
{
    if !is_ahead(code, at, b) {
        return Way::Broken;
    }
    Way::One(
        b,
        Held {
            mode: freed(entry.mode),
            ..entry
        },
    )
}

/// More words. Those that 64 bits do not count are answered with Memory.
#[tactic(auto, using(crate::proofs::Chosen::chosen_leads, crate::proofs::Chosen::chosen_held))]
pub fn frame(
    code: &Code,
    nested: &Nested,
    lists: &Lists,
    at: u32,
    entry: Held,
    n: u32,
) -> Result<Way, Memory>
    requires held { IsHeld lists.now entry }
    requires at { at < MOST_INSTRUCTIONS }
    ensures leads { IfOk result (λ way. steps_of (plain code.now) lists.now way
        ≡ leads (plain code.now) (memberships (opening nested.now)) (Frame n) at (entry_of lists.now entry)) }
    ensures held { IfOk result (λ way. AreHeld lists.now way) }
{
    if !may_frame(entry.mode) {
        return Ok(Way::Broken);
    }
    match entry.words.checked_add(u64::from(n)) {
        None => Err(Memory),
        Some(words) => Ok(Way::One(
            at + 1,
            Held {
                words,
                mode: Mode::Changed,
                ..entry
            },
        )),
    }
}

/// Fewer words.
#[tactic(auto, using(crate::proofs::Chosen::chosen_leads, crate::proofs::Chosen::chosen_held))]
pub fn drop_words(code: &Code, nested: &Nested, lists: &Lists, at: u32, entry: Held, n: u32) -> Way
    requires held { IsHeld lists.now entry }
    requires at { at < MOST_INSTRUCTIONS }
    ensures leads { steps_of (plain code.now) lists.now result
        ≡ leads (plain code.now) (memberships (opening nested.now)) (Drop n) at (entry_of lists.now entry) }
    ensures held { AreHeld lists.now result }
{
    if entry.words < u64::from(n) {
        return Way::Broken;
    }
    let words = entry.words - u64::from(n);
    let way = Way::One(
        at + 1,
        Held {
            words,
            mode: Mode::Changed,
            ..entry
        },
    );
    when(is_above(&lists.blocks, entry.blocks, words), way)
}

/// A piece of the line that is a text.
#[tactic(auto, using(crate::proofs::Chosen::chosen_leads, crate::proofs::Chosen::chosen_held, crate::proofs::Chosen::when_none))]
pub fn text(code: &Code, nested: &Nested, lists: &Lists, at: u32, entry: Held, k: u32) -> Way
    requires held { IsHeld lists.now entry }
    requires at { at < MOST_INSTRUCTIONS }
    ensures leads { steps_of (plain code.now) lists.now result
        ≡ leads (plain code.now) (memberships (opening nested.now)) (Text k) at (entry_of lists.now entry) }
    ensures held { AreHeld lists.now result }
{
    if entry.pieces as usize >= MOST_ITEMS {
        return when(is_text(code, k), Way::Broken);
    }
    let way = Way::One(
        at + 1,
        Held {
            pieces: entry.pieces + 1,
            mode: freed(entry.mode),
            ..entry
        },
    );
    when(is_text(code, k), way)
}

/// The line ends.
#[tactic(auto, using(crate::proofs::Chosen::chosen_leads, crate::proofs::Chosen::chosen_held))]
pub fn print(code: &Code, nested: &Nested, lists: &Lists, at: u32, entry: Held) -> Way
    requires held { IsHeld lists.now entry }
    requires at { at < MOST_INSTRUCTIONS }
    ensures leads { steps_of (plain code.now) lists.now result
        ≡ leads (plain code.now) (memberships (opening nested.now)) Print at (entry_of lists.now entry) }
    ensures held { AreHeld lists.now result }
{
    let way = Way::One(
        at + 1,
        Held {
            pieces: 0,
            mode: Mode::Changed,
            ..entry
        },
    );
    when(may_trap(entry.mode), way)
}

/// A channel has room.
#[tactic(auto, using(crate::proofs::Chosen::chosen_leads, crate::proofs::Chosen::chosen_held, crate::proofs::Chosen::when_and))]
pub fn room(code: &Code, nested: &Nested, lists: &Lists, at: u32, entry: Held, channel: u32) -> Way
    requires held { IsHeld lists.now entry }
    requires at { at < MOST_INSTRUCTIONS }
    ensures leads { steps_of (plain code.now) lists.now result
        ≡ leads (plain code.now) (memberships (opening nested.now)) (Room channel) at (entry_of lists.now entry) }
    ensures held { AreHeld lists.now result }
{
    let way = Way::One(
        at + 1,
        Held {
            mode: Mode::MayPut(channel),
            ..entry
        },
    );
    let sends = is_sender(code, channel, entry.within.process);
    when(is_fresh(entry.mode) & is_main(entry.within) & sends, way)
}

/// A message is there.
#[tactic(auto, using(crate::proofs::Chosen::chosen_leads, crate::proofs::Chosen::chosen_held, crate::proofs::Chosen::when_and))]
pub fn there(code: &Code, nested: &Nested, lists: &Lists, at: u32, entry: Held, channel: u32) -> Way
    requires held { IsHeld lists.now entry }
    requires at { at < MOST_INSTRUCTIONS }
    ensures leads { steps_of (plain code.now) lists.now result
        ≡ leads (plain code.now) (memberships (opening nested.now)) (There channel) at (entry_of lists.now entry) }
    ensures held { AreHeld lists.now result }
{
    let way = Way::One(
        at + 1,
        Held {
            mode: Mode::MayTake(channel),
            ..entry
        },
    );
    let takes = is_receiver(code, channel, entry.within.process);
    when(is_fresh(entry.mode) & is_main(entry.within) & takes, way)
}

/// A message is there, or it is not.
#[tactic(auto, using(crate::proofs::Chosen::chosen_leads, crate::proofs::Chosen::chosen_held, crate::proofs::Chosen::when_and))]
pub fn absent(
    code: &Code,
    nested: &Nested,
    lists: &Lists,
    at: u32,
    entry: Held,
    channel: u32,
    b: u32,
) -> Way
    requires held { IsHeld lists.now entry }
    requires at { at < MOST_INSTRUCTIONS }
    ensures leads { steps_of (plain code.now) lists.now result
        ≡ leads (plain code.now) (memberships (opening nested.now)) (Absent channel b) at (entry_of lists.now entry) }
    ensures held { AreHeld lists.now result }
{
    let without = Held {
        mode: Mode::Free,
        ..entry
    };
    let with = Held {
        mode: Mode::MayTake(channel),
        ..entry
    };
    let way = Way::Two(b, without, at + 1, with);
    let takes = is_receiver(code, channel, entry.within.process);
    let may = is_fresh(entry.mode) & is_main(entry.within) & takes & is_ahead(code, at, b);
    when(may, way)
}

/// A call of a procedure, and what stands behind it.
#[tactic(auto, using(crate::proofs::Chosen::chosen_leads, crate::proofs::Chosen::chosen_held))]
pub fn call(
    code: &Code,
    nested: &Nested,
    ends: &Ends,
    lists: &Lists,
    at: u32,
    entry: Held,
    b: u32,
    p: u32,
    n: u32,
) -> Way
    requires ends { AreEnds (plain code.now) ends.now }
    requires held { IsHeld lists.now entry }
    requires at { at < MOST_INSTRUCTIONS }
    ensures leads { steps_of (plain code.now) lists.now result
        ≡ leads (plain code.now) (memberships (opening nested.now)) (Call b p n) at (entry_of lists.now entry) }
    ensures held { AreHeld lists.now result }
{
    let empty = lists.operands.empty();
    let begun = Held {
        within: Within {
            process: entry.within.process,
            procedure: Some(b),
        },
        operands: empty,
        words: u64::from(p) + u64::from(n),
        blocks: lists.blocks.empty(),
        loops: Loops::Zero,
        pieces: 0,
        mode: Mode::Changed,
    };
    let back = Held {
        operands: empty,
        mode: Mode::Changed,
        ..entry
    };
    let way = Way::Two(b, begun, at + 1, back);
    let way = when(is_procedure(code, ends, entry.within.process, b), way);
    let way = when(no_loops(entry.loops), way);
    let way = when(entry.pieces == 0, way);
    let way = when(lists.operands.length(entry.operands) == p, way);
    when(may_trap(entry.mode), way)
}

/// A procedure ends.
#[tactic(auto, using(crate::proofs::Chosen::chosen_leads, crate::proofs::Chosen::chosen_held, crate::proofs::Chosen::when_and))]
pub fn returns(code: &Code, nested: &Nested, lists: &Lists, at: u32, entry: Held) -> Way
    requires held { IsHeld lists.now entry }
    requires at { at < MOST_INSTRUCTIONS }
    ensures leads { steps_of (plain code.now) lists.now result
        ≡ leads (plain code.now) (memberships (opening nested.now)) Return at (entry_of lists.now entry) }
    ensures held { AreHeld lists.now result }
{
    let none = is_none(&lists.operands, entry.operands);
    let all = none & (entry.pieces == 0) & no_blocks(&lists.blocks, entry.blocks);
    when(!is_main(entry.within) & all, Way::Ends)
}

/// A process is done.
#[tactic(auto, using(crate::proofs::Chosen::chosen_leads, crate::proofs::Chosen::chosen_held, crate::proofs::Chosen::when_and))]
pub fn done(code: &Code, nested: &Nested, lists: &Lists, at: u32, entry: Held) -> Way
    requires held { IsHeld lists.now entry }
    requires at { at < MOST_INSTRUCTIONS }
    ensures leads { steps_of (plain code.now) lists.now result
        ≡ leads (plain code.now) (memberships (opening nested.now)) Done at (entry_of lists.now entry) }
    ensures held { AreHeld lists.now result }
{
    let none = is_none(&lists.operands, entry.operands);
    let all = none & (entry.pieces == 0) & no_blocks(&lists.blocks, entry.blocks);
    when(is_main(entry.within) & all, Way::Ends)
}

/// What stands behind counts as its next address.
#[tactic(auto, using(crate::proofs::Chosen::chosen_leads, crate::proofs::Chosen::chosen_held))]
pub fn fail(code: &Code, nested: &Nested, lists: &Lists, at: u32, entry: Held) -> Way
    requires held { IsHeld lists.now entry }
    requires at { at < MOST_INSTRUCTIONS }
    ensures leads { steps_of (plain code.now) lists.now result
        ≡ leads (plain code.now) (memberships (opening nested.now)) Fail at (entry_of lists.now entry) }
    ensures held { AreHeld lists.now result }
{
    let way = Way::One(at + 1, entry);
    when(may_trap(entry.mode), way)
}

/// Back to the first address of a loop, and past it.
#[tactic(auto, using(crate::proofs::Chosen::chosen_leads, crate::proofs::Chosen::chosen_held, crate::proofs::Chosen::when_and))]
pub fn again(
    code: &Code,
    nested: &Nested,
    lists: &Lists,
    at: u32,
    entry: Held,
    k: u32,
    b: u32,
) -> Way
    requires held { IsHeld lists.now entry }
    requires at { at < MOST_INSTRUCTIONS }
    ensures leads { steps_of (plain code.now) lists.now result
        ≡ leads (plain code.now) (memberships (opening nested.now)) (Again k b) at (entry_of lists.now entry) }
    ensures held { AreHeld lists.now result }
{
    let held = Held {
        mode: freed(entry.mode),
        ..entry
    };
    let way = Way::Two(b, held, at + 1, held);
    when((b <= at) & is_loop(k, b, at, entry.loops), way)
}
