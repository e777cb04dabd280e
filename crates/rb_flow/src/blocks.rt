//! Lists that share their ends, each by its number: the open blocks of all entries.

ghost use Rattle.std.specs.Prelude.{◌≡◌, ◌<◌, List, [], ◌∷◌, ◌++◌, length, get_or, Option, IfOk, MatchOption};
ghost use Rattle.rb_flow.specs.Blocks.{blocks_of, AreBlocked};
ghost use Rattle.rb_entries.specs.Parts.{block_of};

use crate::stacks::MOST_NODES;
use rb_base::Memory;
use rb_entries::entry::OpenBlock;
use std::alloc::Global;
use std::marker::Model;

/// The top of a list, the number of what lies below it, and how long the list is.
#[derive(Clone, Copy)]
pub struct BlockNode {
    pub top: OpenBlock,
    pub below: u32,
    pub length: u32,
}

/// Lists by number; number 0 is the empty one. Contracts see the list of them all.
#[derive(Drop)]
pub struct Blocks {
    nodes: Vec<BlockNode>,
}

impl Model for Blocks {
    ghost use Rattle.std.specs.Prelude.{List};
    ghost use Rattle.rb_code.specs.SoundCode.Sound.{OpenBlock};
    ghost use Rattle.rb_flow.specs.Blocks.{blocks_of, AreBlocked};

    ghost Value = { List (List OpenBlock) };

    ghost view = { λ s. blocks_of s.nodes.items };

    ghost invariant = { λ s. AreBlocked s.nodes.items };
}

impl Blocks {
    /// The empty list alone.
    pub fn new(alloc: Global) -> Self
        ensures { result ≡ [] ∷ [] }
    {
        Blocks {
            nodes: Vec::new(alloc),
        }
    }

    /// A list with one more on top.
    pub fn push(&mut self, top: OpenBlock, below: u32) -> Result<u32, Memory>
        requires below { below < length self.old }
        ensures list { IfOk result (λ at. self.new ≡ self.old ++ (block_of top ∷ get_or self.old below []) ∷ []) }
        ensures number { IfOk result (λ at. at ≡ length self.old) }
    {
        push_node(&mut self.nodes, top, below)
    }

    /// The number of the empty list.
    pub fn empty(&self) -> u32
        ensures list { get_or self.now result [] ≡ [] }
        ensures there { result < length self.now }
    {
        empty_of(&self.nodes)
    }

    /// The length of a list.
    pub fn length(&self, at: u32) -> u32
        requires at { at < length self.now }
        ensures { result ≡ length (get_or self.now at []) }
    {
        length_of(&self.nodes, at)
    }

    /// The top of a list, and the number of what lies below it.
    pub fn top(&self, at: u32) -> Option<TopBlock>
        requires at { at < length self.now }
        ensures { MatchOption result (get_or self.now at [] ≡ [])
            (λ one. (get_or self.now at [] ≡ block_of one.top ∷ get_or self.now one.below []) × (one.below < at)) }
    {
        top_of(&self.nodes, at)
    }
}

/// The top of a list, and the number of what lies below it.
#[derive(Clone, Copy)]
pub struct TopBlock {
    pub top: OpenBlock,
    pub below: u32,
}

fn push_node(nodes: &mut Vec<BlockNode>, top: OpenBlock, below: u32) -> Result<u32, Memory>
    requires stacked { AreBlocked nodes.old.items }
    requires below { below < length (blocks_of nodes.old.items) }
    ensures list { IfOk result (λ at. blocks_of nodes.new.items
        ≡ blocks_of nodes.old.items ++ (block_of top ∷ get_or (blocks_of nodes.old.items) below []) ∷ []) }
    ensures number { IfOk result (λ at. at ≡ length (blocks_of nodes.old.items)) }
    ensures stacked { AreBlocked nodes.new.items }
{
    let under = length_of(nodes, below);
    let number = nodes.len();
    if number >= MOST_NODES || under as usize >= MOST_NODES {
        return Err(Memory);
    }
    let node = BlockNode {
        top,
        below,
        length: under + 1,
    };
    match nodes.push(node) {
        Ok(()) => Ok(number as u32 + 1),
        Err(_) => Err(Memory),
    }
}

fn length_of(nodes: &[BlockNode], at: u32) -> u32
    requires stacked { AreBlocked nodes.now }
    requires at { at < length (blocks_of nodes.now) }
    ensures { result ≡ length (get_or (blocks_of nodes.now) at []) }
{
    if at == 0 {
        return 0;
    }
    nodes[at as usize - 1].length
}

fn top_of(nodes: &[BlockNode], at: u32) -> Option<TopBlock>
    requires stacked { AreBlocked nodes.now }
    requires at { at < length (blocks_of nodes.now) }
    ensures { MatchOption result (get_or (blocks_of nodes.now) at [] ≡ [])
        (λ one. (get_or (blocks_of nodes.now) at [] ≡ block_of one.top ∷ get_or (blocks_of nodes.now) one.below []) × (one.below < at)) }
{
    if at == 0 {
        return None;
    }
    let node = nodes[at as usize - 1];
    Some(TopBlock {
        top: node.top,
        below: node.below,
    })
}

fn empty_of(nodes: &[BlockNode]) -> u32
    ensures list { get_or (blocks_of nodes.now) result [] ≡ [] }
    ensures there { result < length (blocks_of nodes.now) }
{
    0
}
