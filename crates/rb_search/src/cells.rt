//! What is known at all addresses, in little room: what addresses near each other have in common is kept once.

ghost use Rattle.std.specs.Prelude.{◌≡◌, ◌<◌, ◌≤◌, List, length, replicate, set, slice_get, Option, Some, None, option_map, true, false, IfOk};
ghost use Rattle.rb_search.specs.Cells.{cell_of, cells_of, context_in, entry_with, AreKept};
ghost use Rattle.rb_search.specs.Found.{pending};
ghost use Rattle.rb_flow.specs.Held.{IsFront};
ghost use Rattle.rb_entries.specs.declared.entry.Mode.TheVariants.{Changed};

use crate::join::{are_same_bodies, are_same_loops};
use rb_base::Memory;
use rb_entries::cell::Cell;
use rb_entries::entry::{Held, Loops, Mode, Within};
use std::alloc::Global;
use std::marker::Model;

/// The most contexts that are kept. An address whose entry changes keeps its context, so there are no more than addresses.
const MOST_CONTEXTS: usize = 16_777_216;

/// What an instruction mostly leaves as it is.
#[derive(Clone, Copy)]
pub struct Context {
    pub within: Within,
    pub words: u64,
    pub blocks: u32,
    pub loops: Loops,
}

/// The rest of what is known at an address, and the number of its context. They are counted from 1; 0 says that there is no entry.
#[derive(Clone, Copy)]
pub struct Slot {
    pub context: u32,
    pub operands: u32,
    pub mode: Mode,
    pub pieces: u32,
    pub pending: bool,
}

/// What is known at all addresses. Contracts see a list of cells.
#[derive(Drop)]
pub struct Cells {
    contexts: Vec<Context>,
    slots: Vec<Slot>,
}

impl Model for Cells {
    ghost use Rattle.std.specs.Prelude.{List};
    ghost use Rattle.rb_search.specs.Cells.{cells_of, AreKept};
    ghost use Rattle.rb_entries.specs.declared.cell.Cell.{Cell};

    ghost Value = { List Cell };

    ghost view = { λ s. cells_of s.contexts.items s.slots.items };

    ghost invariant = { λ s. AreKept s.contexts.items s.slots.items };
}

impl Cells {
    /// Nothing is known at any of n addresses.
    pub fn new(alloc: Global, n: usize) -> Result<Self, Memory>
        ensures { IfOk result (λ cells. cells ≡ replicate n (record { entry = None; pending = false })) }
    {
        let slots = empty_slots(alloc, n)?;
        Ok(Cells {
            contexts: Vec::new(alloc),
            slots,
        })
    }

    /// How many addresses there are.
    #[inline(always)]
    pub fn len(&self) -> usize
        ensures { result ≡ length self.now }
    {
        self.slots.len()
    }

    /// What is known at an address; None where there is no such address.
    #[inline(always)]
    pub fn get(&self, at: usize) -> Option<Cell>
        ensures { result ≡ slice_get self.now at }
    {
        cell_at(&self.contexts, &self.slots, at)
    }

    /// Whether an address is to be followed; false where there is no such address.
    #[inline(always)]
    pub fn is_pending(&self, at: usize) -> bool
        ensures { result ≡ pending self.now at }
    {
        pending_at(&self.contexts, &self.slots, at)
    }

    /// Something else is known at an address.
    pub fn set(&mut self, at: usize, cell: Cell) -> Result<(), Memory>
        requires at { at < length self.old }
        ensures { IfOk result (λ _. self.new ≡ set self.old at cell) }
    {
        put(&mut self.contexts, &mut self.slots, at, cell)
    }
}

fn empty_slots(alloc: Global, n: usize) -> Result<Vec<Slot>, Memory>
    ensures { IfOk result (λ slots. slots.items
        ≡ replicate n (record { context = 0; operands = 0; mode = Changed; pieces = 0; pending = false })) }
{
    let slots = vec![in alloc; empty_slot(false); n]?;
    Ok(slots)
}

fn empty_slot(pending: bool) -> Slot
    ensures { result ≡ record { context = 0; operands = 0; mode = Changed; pieces = 0; pending = pending } }
{
    Slot {
        context: 0,
        operands: 0,
        mode: Mode::Changed,
        pieces: 0,
        pending,
    }
}

#[inline(always)]
fn cell_at(contexts: &[Context], slots: &[Slot], at: usize) -> Option<Cell>
    ensures { result ≡ slice_get (cells_of contexts.now slots.now) at }
{
    match slots.get(at) {
        None => None,
        Some(slot) => Some(Cell {
            entry: entry_in(contexts, *slot),
            pending: slot.pending,
        }),
    }
}

// The contexts are seen by the contract alone.
#[inline(always)]
fn pending_at(contexts: &[Context], slots: &[Slot], at: usize) -> bool
    ensures { result ≡ pending (cells_of contexts.now slots.now) at }
{
    let _ = contexts;
    match slots.get(at) {
        None => false,
        Some(slot) => slot.pending,
    }
}

#[inline(always)]
fn entry_in(contexts: &[Context], slot: Slot) -> Option<Held>
    ensures { result ≡ option_map (entry_with slot) (context_in contexts.now slot.context) }
{
    match context_of(contexts, slot.context) {
        None => None,
        Some(context) => Some(Held {
            within: context.within,
            operands: slot.operands,
            words: context.words,
            blocks: context.blocks,
            loops: context.loops,
            pieces: slot.pieces,
            mode: slot.mode,
        }),
    }
}

#[inline(always)]
fn context_of(contexts: &[Context], number: u32) -> Option<Context>
    ensures { result ≡ context_in contexts.now number }
{
    if number == 0 {
        return None;
    }
    match contexts.get(number as usize - 1) {
        None => None,
        Some(context) => Some(*context),
    }
}

fn put(
    contexts: &mut Vec<Context>,
    slots: &mut Vec<Slot>,
    at: usize,
    cell: Cell,
) -> Result<(), Memory>
    requires kept { AreKept contexts.old.items slots.old.items }
    requires at { at < length slots.old.items }
    ensures kept { AreKept contexts.new.items slots.new.items }
    ensures cells { IfOk result (λ _. cells_of contexts.new.items slots.new.items ≡ set (cells_of contexts.old.items slots.old.items) at cell) }
{
    let slot = slot_of(contexts, slots, at, cell)?;
    slots[at] = slot;
    Ok(())
}

// What is kept of a cell, with its context.
fn slot_of(
    contexts: &mut Vec<Context>,
    slots: &[Slot],
    at: usize,
    cell: Cell,
) -> Result<Slot, Memory>
    requires at { at < length slots.now }
    ensures is { IfOk result (λ slot. cell_of contexts.new.items slot ≡ cell) }
    ensures there { IfOk result (λ slot. slot.context ≤ length contexts.new.items) }
    ensures grown { IsFront contexts.old.items contexts.new.items }
{
    let held = match cell.entry {
        None => return Ok(empty_slot(cell.pending)),
        Some(held) => held,
    };
    let context = number_of(contexts, slots, at, shared(held))?;
    Ok(Slot {
        context,
        operands: held.operands,
        mode: held.mode,
        pieces: held.pieces,
        pending: cell.pending,
    })
}

fn shared(held: Held) -> Context
    ensures { result ≡ record { within = held.within; words = held.words; blocks = held.blocks; loops = held.loops } }
{
    Context {
        within: held.within,
        words: held.words,
        blocks: held.blocks,
        loops: held.loops,
    }
}

// The number of a context: that of the address itself, of the one before it, or of the last one, where it is the same; else it is a new one.
fn number_of(
    contexts: &mut Vec<Context>,
    slots: &[Slot],
    at: usize,
    context: Context,
) -> Result<u32, Memory>
    requires at { at < length slots.now }
    ensures is { IfOk result (λ number. context_in contexts.new.items number ≡ Some context) }
    ensures grown { IsFront contexts.old.items contexts.new.items }
{
    let own = slots[at].context;
    if is_context(contexts, own, context) {
        return Ok(own);
    }
    let before = if at == 0 { 0 } else { slots[at - 1].context };
    if is_context(contexts, before, context) {
        return Ok(before);
    }
    add(contexts, context)
}

fn add(contexts: &mut Vec<Context>, context: Context) -> Result<u32, Memory>
    ensures is { IfOk result (λ number. context_in contexts.new.items number ≡ Some context) }
    ensures grown { IsFront contexts.old.items contexts.new.items }
{
    let count = contexts.len();
    if count >= MOST_CONTEXTS {
        return Err(Memory);
    }
    if is_context(contexts, count as u32, context) {
        return Ok(count as u32);
    }
    contexts.push(context)?;
    Ok(count as u32 + 1)
}

fn is_context(contexts: &[Context], number: u32, context: Context) -> bool
    ensures { result ≡ true → context_in contexts.now number ≡ Some context }
{
    match context_of(contexts, number) {
        None => false,
        Some(one) => are_same_contexts(one, context),
    }
}

#[tactic(auto, using(crate::proofs::Keeping::contexts_same))]
fn are_same_contexts(a: Context, b: Context) -> bool
    ensures { result ≡ true → a ≡ b }
{
    let bodies = are_same_bodies(a.within, b.within);
    let loops = are_same_loops(a.loops, b.loops);
    bodies && loops && a.words == b.words && a.blocks == b.blocks
}
