//! Where a turn may store: for each address the words of variables that can be others once a turn that goes on there has ended.

ghost use Rattle.std.specs.Prelude.{◌≡◌, ℕ, ◌+◌, ◌-◌, ◌<◌, ◌≤◌, ◌^◌, List, length, slice_get, true, vec_len, IfOk};
ghost use Rattle.rb_code.specs.Instructions.Plain.{code as plain};
ghost use Rattle.rb_code.specs.SoundCode.Reached.{successors};
ghost use Rattle.rb_code.specs.SoundCode.Sound.{IsMember, alternates_at};
ghost use Rattle.rb_back.specs.Stores.{AreAllIn, AreBoundBy, AreRanges, IsIn, LiesAt, MayBeIn, MayStore, MayStoreFrom};

use rb_base::Memory;
use rb_code::{Code, Instr, Spot};
use std::alloc::Global;

/// Words from one place up to another.
#[derive(Clone, Copy)]
pub(crate) struct Stores {
    pub from: u32,
    pub to: u32,
}

/// No word.
const NOTHING: Stores = Stores {
    from: u32::MAX,
    to: 0,
};

/// All words.
pub(crate) const EVERYTHING: Stores = Stores {
    from: 0,
    to: u32::MAX,
};

/// For each address where it may store. Of code in which two passes backwards don't find that, no address has words of its own.
pub(crate) fn store_ranges(alloc: Global, code: &Code) -> Result<Vec<Stores>, Memory>
    ensures { IfOk result (λ ranges. AreRanges (plain code.now) ranges.items) }
{
    let most = most_bound(&code.instrs);
    let mut ranges = nothing_stored(alloc, code.instrs.len())?;
    gather(code, most, &mut ranges);
    gather(code, most, &mut ranges);
    if !are_ranges(code, most, &ranges) {
        ranges.clear();
    }
    Ok(ranges)
}

/// Where a turn that goes on at an address may store.
pub(crate) fn stores_at(ranges: &[Stores], at: usize) -> Stores
    ensures all { AreAllIn (slice_get ranges.now at) result }
    ensures no_more { (k : ℕ) → IsIn k result → MayBeIn k (slice_get ranges.now at) }
{
    match ranges.get(at) {
        Some(stores) => *stores,
        None => EVERYTHING,
    }
}

// So many addresses, of which none stores.
fn nothing_stored(alloc: Global, addresses: usize) -> Result<Vec<Stores>, Memory>
    ensures { IfOk result (λ ranges. vec_len ranges ≡ addresses) }
{
    let mut ranges = Vec::with_capacity(alloc, addresses)?;
    for _at in 0..addresses {
        ranges.push(NOTHING)?;
    }
    Ok(ranges)
}

// The greatest number of a `bound`.
fn most_bound(instrs: &[Instr]) -> u32
    ensures { AreBoundBy instrs.now result }
{
    let mut most = 0;
    for at in 0..instrs.len() {
        if let Instr::Bound(n) = instrs[at] {
            most = n.max(most);
        }
    }
    most
}

// One pass backwards, in which each address gets what it stores, and what those do to which it leads.
fn gather(code: &Code, most: u32, ranges: &mut [Stores])
    requires { length ranges.old ≡ vec_len code.now.instrs }
    ensures { length ranges.new ≡ length ranges.old }
{
    let mut at = ranges.len();
    while at > 0 {
        at -= 1;
        ranges[at] = stores_from(code, most, ranges, at);
    }
}

// Whether each address has that already.
fn are_ranges(code: &Code, most: u32, ranges: &[Stores]) -> bool
    requires long { length ranges.now ≡ vec_len code.now.instrs }
    requires bounds { AreBoundBy code.now.instrs.items most }
    ensures { result ≡ true → AreRanges (plain code.now) ranges.now }
{
    let mut all = true;
    for at in 0..ranges.len() {
        let here = stores_at(ranges, at);
        all &= is_within(stores_from(code, most, ranges, at), here);
    }
    all
}

// What the instruction at an address stores, and what those do to which it leads.
fn stores_from(code: &Code, most: u32, ranges: &[Stores], at: usize) -> Stores
    requires { at < vec_len code.now.instrs }
    ensures own { (instr : Instr) (k : ℕ) → slice_get code.now.instrs.items at ≡ Some instr → k < 2 ^ 32 - 1 → MayStore most instr k → IsIn k result }
    ensures behind { (instr : Instr) (b k : ℕ) → slice_get code.now.instrs.items at ≡ Some instr
        → IsMember b (successors (plain code.now) instr at) → k < 2 ^ 32 - 1 → MayStoreFrom (plain code.now) ranges.now b k → IsIn k result }
{
    let instr = code.instrs[at];
    joined(
        own_stores(instr, most),
        stores_behind(code, ranges, instr, at),
    )
}

// What an instruction itself may store.
fn own_stores(instr: Instr, most: u32) -> Stores
    ensures { (k : ℕ) → k < 2 ^ 32 - 1 → MayStore most instr k → IsIn k result }
{
    match instr {
        Instr::Store(spot) => words_of(spot, 1),
        Instr::StoreAt(spot) => words_of(spot, most),
        Instr::Return => EVERYTHING,
        _ => NOTHING,
    }
}

// So many words from the first one of a variable on, if it is one of the process.
fn words_of(spot: Spot, many: u32) -> Stores
    ensures { (k : ℕ) → k < 2 ^ 32 - 1 → LiesAt spot many k → IsIn k result }
{
    match spot {
        Spot::Global(first) => words_at(first, many),
        Spot::Local(_) => NOTHING,
    }
}

// So many words from a place on.
fn words_at(first: u32, many: u32) -> Stores
    ensures { (k : ℕ) → k < 2 ^ 32 - 1 → first ≤ k → k < first + many → IsIn k result }
{
    Stores {
        from: first,
        to: first.saturating_add(many),
    }
}

// What is stored from where an instruction leads.
fn stores_behind(code: &Code, ranges: &[Stores], instr: Instr, at: usize) -> Stores
    requires { at < vec_len code.now.instrs }
    ensures { (b k : ℕ) → IsMember b (successors (plain code.now) instr at) → k < 2 ^ 32 - 1 → MayStoreFrom (plain code.now) ranges.now b k
        → IsIn k result }
{
    let next = stores_by(code, ranges, at + 1);
    match instr {
        Instr::Jump(b) => stores_by(code, ranges, b as usize),
        Instr::JumpZero(b)
        | Instr::Absent(_, b)
        | Instr::Range(_, b)
        | Instr::Again(_, b)
        | Instr::Call(b, _, _) => joined(stores_by(code, ranges, b as usize), next),
        Instr::Start(b) => stores_by_block(code, ranges, b),
        Instr::Return | Instr::Done => NOTHING,
        _ => next,
    }
}

// What is stored from the alternates of a block on.
fn stores_by_block(code: &Code, ranges: &[Stores], b: u32) -> Stores
    ensures { (x k : ℕ) → IsMember x (alternates_at (slice_get (plain code.now).blocks b)) → k < 2 ^ 32 - 1
        → MayStoreFrom (plain code.now) ranges.now x k → IsIn k result }
{
    match code.blocks.get(b as usize) {
        None => NOTHING,
        Some(block) => stores_by_all(code, ranges, &block.alternates),
    }
}

// What is stored from these addresses on.
fn stores_by_all(code: &Code, ranges: &[Stores], addresses: &[u32]) -> Stores
    ensures { (b k : ℕ) → IsMember b addresses.now → k < 2 ^ 32 - 1 → MayStoreFrom (plain code.now) ranges.now b k → IsIn k result }
{
    let mut all = NOTHING;
    let mut rest = addresses;
    while let [first, others @ ..] = rest {
        all = joined(all, stores_by(code, ranges, *first as usize));
        rest = others;
    }
    all
}

// What is stored from an address on, where no turn begins there.
fn stores_by(code: &Code, ranges: &[Stores], at: usize) -> Stores
    ensures { (k : ℕ) → k < 2 ^ 32 - 1 → MayStoreFrom (plain code.now) ranges.now at k → IsIn k result }
{
    match code.instrs.get(at) {
        Some(Instr::Turn) => NOTHING,
        _ => stores_at(ranges, at),
    }
}

// The words of both, with those between.
fn joined(one: Stores, other: Stores) -> Stores
    ensures one { (k : ℕ) → IsIn k one → IsIn k result }
    ensures other { (k : ℕ) → IsIn k other → IsIn k result }
{
    Stores {
        from: one.from.min(other.from),
        to: one.to.max(other.to),
    }
}

fn is_within(inner: Stores, outer: Stores) -> bool
    ensures { result ≡ true → (k : ℕ) → IsIn k inner → IsIn k outer }
{
    outer.from <= inner.from && inner.to <= outer.to
}
