//! Lists that share their ends, each by its number: the operands of all entries.

ghost use Rattle.std.specs.Prelude.{◌≡◌, ℕ, ◌<◌, List, [], ◌∷◌, ◌++◌, length, get_or, Option, IfOk, MatchOption};
ghost use Rattle.rb_flow.specs.Stacks.{stacks_of, AreStacked};

use rb_base::Memory;
use std::alloc::Global;
use std::marker::Model;

/// The most nodes that are kept: those that share what lies below them count once.
pub const MOST_NODES: usize = 16_777_216;

/// The top of a list, the number of what lies below it, and how long the list is.
#[derive(Clone, Copy)]
pub struct Node {
    pub top: Option<u32>,
    pub below: u32,
    pub length: u32,
}

/// Lists by number; number 0 is the empty one. Contracts see the list of them all.
#[derive(Drop)]
pub struct Stacks {
    nodes: Vec<Node>,
}

impl Model for Stacks {
    ghost use Rattle.std.specs.Prelude.{ℕ, List, Option};
    ghost use Rattle.rb_flow.specs.Stacks.{stacks_of, AreStacked};

    ghost Value = { List (List (Option ℕ)) };

    ghost view = { λ s. stacks_of s.nodes.items };

    ghost invariant = { λ s. AreStacked s.nodes.items };
}

impl Stacks {
    /// The empty list alone.
    pub fn new(alloc: Global) -> Self
        ensures { result ≡ [] ∷ [] }
    {
        Stacks {
            nodes: Vec::new(alloc),
        }
    }

    /// A list with one more on top.
    pub fn push(&mut self, top: Option<u32>, below: u32) -> Result<u32, Memory>
        requires below { below < length self.old }
        ensures list { IfOk result (λ at. self.new ≡ self.old ++ (top ∷ get_or self.old below []) ∷ []) }
        ensures number { IfOk result (λ at. at ≡ length self.old) }
    {
        push_node(&mut self.nodes, top, below)
    }

    /// The number of the empty list.
    pub fn empty(&self) -> u32
        ensures list { get_or self.now result [] ≡ [] }
        ensures there { result < length self.now }
    {
        empty_of(&self.nodes)
    }

    /// The length of a list.
    pub fn length(&self, at: u32) -> u32
        requires at { at < length self.now }
        ensures { result ≡ length (get_or self.now at []) }
    {
        length_of(&self.nodes, at)
    }

    /// The top of a list, and the number of what lies below it.
    pub fn top(&self, at: u32) -> Option<Top>
        requires at { at < length self.now }
        ensures { MatchOption result (get_or self.now at [] ≡ [])
            (λ one. (get_or self.now at [] ≡ one.top ∷ get_or self.now one.below []) × (one.below < at)) }
    {
        top_of(&self.nodes, at)
    }
}

/// The top of a list, and the number of what lies below it.
#[derive(Clone, Copy)]
pub struct Top {
    pub top: Option<u32>,
    pub below: u32,
}

fn push_node(nodes: &mut Vec<Node>, top: Option<u32>, below: u32) -> Result<u32, Memory>
    requires stacked { AreStacked nodes.old.items }
    requires below { below < length (stacks_of nodes.old.items) }
    ensures list { IfOk result (λ at. stacks_of nodes.new.items
        ≡ stacks_of nodes.old.items ++ (top ∷ get_or (stacks_of nodes.old.items) below []) ∷ []) }
    ensures number { IfOk result (λ at. at ≡ length (stacks_of nodes.old.items)) }
    ensures stacked { AreStacked nodes.new.items }
{
    let under = length_of(nodes, below);
    let number = nodes.len();
    if number >= MOST_NODES || under as usize >= MOST_NODES {
        return Err(Memory);
    }
    let node = Node {
        top,
        below,
        length: under + 1,
    };
    match nodes.push(node) {
        Ok(()) => Ok(number as u32 + 1),
        Err(_) => Err(Memory),
    }
}

fn length_of(nodes: &[Node], at: u32) -> u32
    requires stacked { AreStacked nodes.now }
    requires at { at < length (stacks_of nodes.now) }
    ensures { result ≡ length (get_or (stacks_of nodes.now) at []) }
{
    if at == 0 {
        return 0;
    }
    nodes[at as usize - 1].length
}

fn top_of(nodes: &[Node], at: u32) -> Option<Top>
    requires stacked { AreStacked nodes.now }
    requires at { at < length (stacks_of nodes.now) }
    ensures { MatchOption result (get_or (stacks_of nodes.now) at [] ≡ [])
        (λ one. (get_or (stacks_of nodes.now) at [] ≡ one.top ∷ get_or (stacks_of nodes.now) one.below []) × (one.below < at)) }
{
    if at == 0 {
        return None;
    }
    let node = nodes[at as usize - 1];
    Some(Top {
        top: node.top,
        below: node.below,
    })
}

fn empty_of(nodes: &[Node]) -> u32
    ensures list { get_or (stacks_of nodes.now) result [] ≡ [] }
    ensures there { result < length (stacks_of nodes.now) }
{
    0
}
