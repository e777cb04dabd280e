//! Where two entries meet.

ghost use Rattle.std.specs.Prelude.{◌≡◌, ◌<◌, ◌&&◌, [], ◌∷◌, length, get_or, Option, Some, None, option_map, IfOk, true, false};
ghost use Rattle.rb_flow.specs.Held.{entry_of, IsFront, IsHeld, HasGrown};
ghost use Rattle.rb_entries.specs.Join.{is_alike, joined, met_operands, same_procedure, same_block, same_blocks, same_loop, same_loops, same_within};
ghost use Rattle.rb_entries.specs.Parts.{block_of, loop_of, loops_of, within_of};
ghost use Rattle.rb_search.specs.Meeting.{met_of, HasOther, IsKnownBy, IsMet, IsOther, IsThere};
ghost use Rattle.rb_flow.specs.declared.lists.Lists.{Lists as AllLists};

use rb_base::Memory;
use rb_entries::entry::{Held, Loop, Loops, Mode, OpenBlock, Within};
use rb_entries::meeting::{are_same_modes, meet_modes, meet_operands};
use rb_flow::blocks::Blocks;
use rb_flow::lists::Lists;
use rb_flow::stacks::{Stacks, Top};

/// What the join of an entry with one that was found is: there is none, it is what was found, or a weaker one.
#[derive(Clone, Copy)]
pub enum Met {
    Apart,
    Same,
    Weaker(Held),
}

/// The join of two entries.
pub fn meet(lists: &mut Lists, found: Held, entry: Held) -> Result<Met, Memory>
    requires found { IsHeld lists.old found }
    requires entry { IsHeld lists.old entry }
    ensures met { IfOk result (λ met. met_of lists.new found met ≡ joined (entry_of lists.old found) (entry_of lists.old entry)) }
    ensures held { IfOk result (λ met. IsMet lists.new met) }
    ensures grown { IfOk result (λ met. HasGrown lists.old lists.new) }
    ensures other { IfOk result (λ met. IsOther lists.old lists.new found met) }
{
    if !are_alike(lists, found, entry) {
        return Ok(Met::Apart);
    }
    match meet_lists(&mut lists.operands, found.operands, entry.operands)? {
        None => Ok(Met::Apart),
        Some(operands) => Ok(weaker(found, operands, meet_modes(found.mode, entry.mode))),
    }
}

fn weaker(found: Held, operands: u32, mode: Mode) -> Met
    ensures met { (lists : AllLists) → met_of lists found result ≡ Some (entry_of lists (record found { operands = operands; mode = mode })) }
    ensures other { HasOther found operands mode result }
    ensures held { (lists : AllLists) → IsHeld lists found → operands < length lists.operands → IsMet lists result }
{
    if operands == found.operands && are_same_modes(mode, found.mode) {
        return Met::Same;
    }
    Met::Weaker(Held {
        operands,
        mode,
        ..found
    })
}

fn meet_lists(operands: &mut Stacks, a: u32, b: u32) -> Result<Option<u32>, Memory>
    requires a { a < length operands.old }
    requires b { b < length operands.old }
    ensures known { IfOk result (λ n. IsKnownBy operands.old operands.new a n) }
    ensures met { IfOk result (λ n. option_map (λ at. get_or operands.new at []) n ≡ met_operands (get_or operands.old a [])
        (get_or operands.old b [])) }
    ensures there { IfOk result (λ n. IsThere operands.new n) }
    ensures grown { IfOk result (λ n. IsFront operands.old operands.new) }
{
    if a == b {
        return Ok(Some(a));
    }
    let x = match operands.top(a) {
        None => return Ok(if_empty(operands, a, b)),
        Some(x) => x,
    };
    let y = match operands.top(b) {
        None => return Ok(None),
        Some(y) => y,
    };
    match meet_lists(operands, x.below, y.below)? {
        None => Ok(None),
        Some(rest) => put_top(operands, a, x, meet_operands(x.top, y.top), rest),
    }
}

// The list a, which is empty, if b is.
fn if_empty(operands: &Stacks, a: u32, b: u32) -> Option<u32>
    requires a { a < length operands.now }
    requires b { b < length operands.now }
    requires empty { get_or operands.now a [] ≡ [] }
    ensures known { IsKnownBy operands.now operands.now a result }
    ensures met { option_map (λ at. get_or operands.now at []) result ≡ met_operands (get_or operands.now a []) (get_or operands.now b []) }
    ensures there { IsThere operands.now result }
{
    match operands.top(b) {
        None => Some(a),
        Some(_) => None,
    }
}

// Puts an operand on a list, which is list a if nothing of it changed.
fn put_top(
    operands: &mut Stacks,
    a: u32,
    x: Top,
    top: Option<u32>,
    rest: u32,
) -> Result<Option<u32>, Memory>
    requires a { a < length operands.old }
    requires rest { rest < length operands.old }
    requires is { get_or operands.old a [] ≡ x.top ∷ get_or operands.old x.below [] }
    requires known { get_or operands.old rest [] ≡ get_or operands.old x.below [] → rest ≡ x.below }
    ensures known { IfOk result (λ n. IsKnownBy operands.old operands.new a n) }
    ensures put { IfOk result (λ n. option_map (λ at. get_or operands.new at []) n ≡ Some (top ∷ get_or operands.old rest [])) }
    ensures there { IfOk result (λ n. IsThere operands.new n) }
    ensures grown { IfOk result (λ n. IsFront operands.old operands.new) }
{
    if rest == x.below && are_same_operands(top, x.top) {
        return Ok(Some(a));
    }
    let at = operands.push(top, rest)?;
    Ok(Some(at))
}

fn are_same_operands(a: Option<u32>, b: Option<u32>) -> bool
    ensures same { result ≡ true → a ≡ b }
    ensures differ { result ≡ false → a ≡ b → ⊥ }
{
    match a {
        None => match b {
            None => true,
            Some(_) => false,
        },
        Some(x) => match b {
            None => false,
            Some(y) => x == y,
        },
    }
}

fn are_alike(lists: &Lists, e: Held, f: Held) -> bool
    requires e { IsHeld lists.now e }
    requires f { IsHeld lists.now f }
    ensures { result ≡ is_alike (entry_of lists.now e) (entry_of lists.now f) }
{
    are_same_bodies(e.within, f.within)
        && e.words == f.words
        && are_same_blocks(&lists.blocks, e.blocks, f.blocks)
        && are_same_loops(e.loops, f.loops)
        && e.pieces == f.pieces
}

pub fn are_same_bodies(a: Within, b: Within) -> bool
    ensures { result ≡ same_within (within_of a) (within_of b) }
{
    a.process == b.process && are_same_procedures(a.procedure, b.procedure)
}

fn are_same_procedures(a: Option<u32>, b: Option<u32>) -> bool
    ensures { result ≡ same_procedure a b }
{
    match a {
        None => match b {
            None => true,
            Some(_) => false,
        },
        Some(x) => match b {
            None => false,
            Some(y) => x == y,
        },
    }
}

fn are_same_blocks(blocks: &Blocks, a: u32, b: u32) -> bool
    requires a { a < length blocks.now }
    requires b { b < length blocks.now }
    ensures { result ≡ same_blocks (get_or blocks.now a []) (get_or blocks.now b []) }
{
    if a == b {
        return true;
    }
    let x = match blocks.top(a) {
        None => return is_no_block(blocks, b),
        Some(x) => x,
    };
    let y = match blocks.top(b) {
        None => return false,
        Some(y) => y,
    };
    is_same_block(x.top, y.top) && are_same_blocks(blocks, x.below, y.below)
}

fn is_no_block(blocks: &Blocks, b: u32) -> bool
    requires b { b < length blocks.now }
    ensures { result ≡ same_blocks [] (get_or blocks.now b []) }
{
    match blocks.top(b) {
        None => true,
        Some(_) => false,
    }
}

fn is_same_block(a: OpenBlock, b: OpenBlock) -> bool
    ensures { result ≡ same_block (block_of a) (block_of b) }
{
    a.number == b.number && a.words == b.words
}

pub fn is_same_loop(a: Loop, b: Loop) -> bool
    ensures { result ≡ same_loop (loop_of a) (loop_of b) }
{
    a.counter == b.counter && a.first == b.first && a.last == b.last
}

pub fn are_same_loops(a: Loops, b: Loops) -> bool
    ensures { result ≡ same_loops (loops_of a) (loops_of b) }
{
    match a {
        Loops::Zero => match b {
            Loops::Zero => true,
            _ => false,
        },
        Loops::One(x) => match b {
            Loops::One(y) => is_same_loop(x, y),
            _ => false,
        },
        Loops::Two(x, v) => match b {
            Loops::Two(y, w) => is_same_loop(x, y) && is_same_loop(v, w),
            _ => false,
        },
    }
}
