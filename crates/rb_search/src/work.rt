//! The addresses that are to be followed.

ghost use Rattle.std.specs.Prelude.{◌≡◌, ℕ, ◌+◌, ◌≤◌, List, [], ◌∷◌, true, map, length, Contains, IfOk, MatchOption};
ghost use Rattle.std.specs.BinaryHeap.{heap_items};
ghost use Rattle.std.specs.List.Sorted.{IsPermutation};
ghost use Rattle.rb_search.specs.Waiting.{waiting};

use rb_base::Memory;
use std::alloc::Global;
use std::cmp::Reverse;
use std::collections::BinaryHeap;
use std::marker::Model;

/// Addresses that are to be followed, of which the lowest one comes next: then what is joined at an address has mostly come before it is
/// followed. Contracts see the list of them, in no order.
#[derive(Drop)]
pub struct Work {
    heap: BinaryHeap<Reverse<u32>>,
}

impl Model for Work {
    ghost use Rattle.std.specs.Prelude.{ℕ, List, map};
    ghost use Rattle.std.specs.BinaryHeap.{heap_items};
    ghost use Rattle.rb_search.specs.Waiting.{waiting};

    ghost Value = { List ℕ };

    ghost view = { λ w. map waiting (heap_items w.heap) };
}

impl Work {
    /// No address.
    pub fn new(alloc: Global) -> Self
        ensures { result ≡ [] }
    {
        Work {
            heap: BinaryHeap::new(alloc),
        }
    }

    /// One address more.
    pub fn push(&mut self, at: u32) -> Result<(), Memory>
        ensures { IfOk result (λ _. IsPermutation (at ∷ self.old) self.new) }
    {
        push_on(&mut self.heap, at)
    }

    /// The next address, which goes from the list; None where the list is empty.
    pub fn pop(&mut self) -> Option<u32>
        ensures { MatchOption result (self.old ≡ []) (λ at. IsPermutation self.old (at ∷ self.new)) }
    {
        pop_from(&mut self.heap)
    }
}

fn push_on(heap: &mut BinaryHeap<Reverse<u32>>, at: u32) -> Result<(), Memory>
    ensures { IfOk result (λ _. IsPermutation (at ∷ map waiting (heap_items heap.old)) (map waiting (heap_items heap.new))) }
{
    heap.push(Reverse(at))?;
    Ok(())
}

fn pop_from(heap: &mut BinaryHeap<Reverse<u32>>) -> Option<u32>
    ensures { MatchOption result (map waiting (heap_items heap.old) ≡ [])
        (λ at. IsPermutation (map waiting (heap_items heap.old)) (at ∷ map waiting (heap_items heap.new))) }
{
    let Some(one) = heap.pop() else {
        return None;
    };
    Some(one.0)
}

/// An address is to be followed, and is put on the list if it is not there.
pub fn wait(work: &mut Work, is_there: bool, at: u32) -> Result<(), Memory>
    requires listed { is_there ≡ true → Contains work.old at }
    ensures keeps { IfOk result (λ _. (a : ℕ) → Contains work.old a → Contains work.new a) }
    ensures has { IfOk result (λ _. Contains work.new at) }
    ensures few { IfOk result (λ _. length work.new ≤ length work.old + 1) }
{
    if is_there {
        return Ok(());
    }
    work.push(at)?;
    Ok(())
}
