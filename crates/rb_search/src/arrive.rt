//! A step arrives at an address.

ghost use Rattle.std.specs.Prelude.{◌≡◌, ℕ, ◌+◌, ◌<◌, ◌≤◌, [], ◌∷◌, length, set, filter, slice_get, Some, None, true, IfOk, IfErr, Contains};
ghost use Rattle.rb_search.specs.declared.refusal.Refusal.TheVariants.{Memory};
ghost use Rattle.rb_code.specs.SoundCode.Sound.{at_address, is_in};
ghost use Rattle.rb_flow.specs.Flow.{goes};
ghost use Rattle.rb_flow.specs.Held.{entry_of, IsHeld, HasGrown};
ghost use Rattle.rb_entries.specs.Parts.{loop_of, loops_of};
ghost use Rattle.rb_search.specs.Search.{Gains};
ghost use Rattle.rb_search.specs.Weight.{left};
ghost use Rattle.rb_search.specs.Found.{found, held_in, pending, IfUnsound, IsWell, NoneTakes};
ghost use Rattle.rb_flow.specs.declared.lists.Lists.{Lists as AllLists};

use crate::cells::Cells;
use crate::join::{Met, meet};
use crate::refusal::Refusal;
use crate::work::{Work, wait};
use rb_entries::cell::changed;
use rb_entries::entry::{Held, Loop, Loops};
use rb_flow::lists::Lists;

/// A step to an address with an entry: what is known there is joined with it, and where that changes it the address is to be followed.
pub fn arrive(
    lists: &mut Lists,
    cells: &mut Cells,
    work: &mut Work,
    at: u32,
    entry: Held,
) -> Result<(), Refusal>
    requires well { IsWell lists.old cells.old work.old }
    requires held { IsHeld lists.old entry }
    ensures gains { IfOk result (λ _. Gains (record { at = at; entry = entry_of lists.old entry } ∷ [])
        (found lists.old cells.old) (pending cells.old) (found lists.new cells.new) (pending cells.new)) }
    ensures well { IfOk result (λ _. IsWell lists.new cells.new work.new) }
    ensures size { IfOk result (λ _. length cells.new ≡ length cells.old) }
    ensures grown { IfOk result (λ _. HasGrown lists.old lists.new) }
    ensures left { IfOk result (λ _. left lists.new cells.new work.new ≤ left lists.old cells.old work.old) }
    ensures unsound { IfErr result (λ r. IfUnsound r
        (NoneTakes (length cells.old) (found lists.old cells.old) (goes at (entry_of lists.old entry)))) }
{
    match cells.get(at as usize) {
        None => Err(Refusal::Unsound),
        Some(cell) => match cell.entry {
            None => arrive_first(lists, cells, work, at, entry),
            Some(known) => arrive_again(lists, cells, work, at, known, entry),
        },
    }
}

fn arrive_first(
    lists: &Lists,
    cells: &mut Cells,
    work: &mut Work,
    at: u32,
    entry: Held,
) -> Result<(), Refusal>
    requires well { IsWell lists.now cells.old work.old }
    requires held { IsHeld lists.now entry }
    requires at { at < length cells.old }
    requires none { held_in (slice_get cells.old at) ≡ None }
    ensures gains { IfOk result (λ _. Gains (record { at = at; entry = entry_of lists.now entry } ∷ [])
        (found lists.now cells.old) (pending cells.old) (found lists.now cells.new) (pending cells.new)) }
    ensures well { IfOk result (λ _. IsWell lists.now cells.new work.new) }
    ensures size { IfOk result (λ _. length cells.new ≡ length cells.old) }
    ensures left { IfOk result (λ _. left lists.now cells.new work.new ≤ left lists.now cells.old work.old) }
    ensures memory { IfErr result (λ r. r ≡ Memory) }
{
    // It tells contracts that the list is short enough.
    let _ = lists.operands.length(entry.operands);
    let entry = staying(at, entry);
    match mark(cells, work, at, entry) {
        Err(_) => Err(Refusal::Memory),
        Ok(()) => Ok(()),
    }
}

fn arrive_again(
    lists: &mut Lists,
    cells: &mut Cells,
    work: &mut Work,
    at: u32,
    known: Held,
    entry: Held,
) -> Result<(), Refusal>
    requires well { IsWell lists.old cells.old work.old }
    requires held { IsHeld lists.old entry }
    requires at { at < length cells.old }
    requires known { held_in (slice_get cells.old at) ≡ Some known }
    ensures gains { IfOk result (λ _. Gains (record { at = at; entry = entry_of lists.old entry } ∷ [])
        (found lists.old cells.old) (pending cells.old) (found lists.new cells.new) (pending cells.new)) }
    ensures well { IfOk result (λ _. IsWell lists.new cells.new work.new) }
    ensures size { IfOk result (λ _. length cells.new ≡ length cells.old) }
    ensures grown { IfOk result (λ _. HasGrown lists.old lists.new) }
    ensures left { IfOk result (λ _. left lists.new cells.new work.new ≤ left lists.old cells.old work.old) }
    ensures unsound { IfErr result (λ r. IfUnsound r
        (NoneTakes (length cells.old) (found lists.old cells.old) (goes at (entry_of lists.old entry)))) }
{
    let entry = staying(at, entry);
    match meet(lists, known, entry) {
        Err(_) => Err(Refusal::Memory),
        Ok(met) => match met {
            Met::Apart => Err(Refusal::Unsound),
            Met::Same => Ok(()),
            Met::Weaker(weaker) => match mark(cells, work, at, weaker) {
                Err(_) => Err(Refusal::Memory),
                Ok(()) => Ok(()),
            },
        },
    }
}

// An address has another entry now, and is to be followed.
fn mark(cells: &mut Cells, work: &mut Work, at: u32, entry: Held) -> Result<(), Refusal>
    requires at { at < length cells.old }
    requires listed { pending cells.old at ≡ true → Contains work.old at }
    ensures cells { IfOk result (λ _. cells.new ≡ set cells.old at (record { entry = Some entry; pending = true })) }
    ensures keeps { IfOk result (λ _. (a : ℕ) → Contains work.old a → Contains work.new a) }
    ensures has { IfOk result (λ _. Contains work.new at) }
    ensures few { IfOk result (λ _. length work.new ≤ length work.old + 1) }
    ensures memory { IfErr result (λ r. r ≡ Memory) }
{
    match wait(work, cells.is_pending(at as usize), at) {
        Err(_) => return Err(Refusal::Memory),
        Ok(()) => {}
    }
    match cells.set(at as usize, changed(entry)) {
        Err(_) => Err(Refusal::Memory),
        Ok(()) => Ok(()),
    }
}

// The entry without the loops that are left at an address.
fn staying(at: u32, entry: Held) -> Held
    ensures entry { (lists : AllLists) → entry_of lists result ≡ at_address at (entry_of lists entry) }
    ensures held { (lists : AllLists) → IsHeld lists entry → IsHeld lists result }
{
    Held {
        loops: staying_loops(at, entry.loops),
        ..entry
    }
}

fn staying_loops(at: u32, loops: Loops) -> Loops
    ensures { loops_of result ≡ filter (is_in at) (loops_of loops) }
{
    match loops {
        Loops::Zero => Loops::Zero,
        Loops::One(x) => if is_inside(at, x) {
            Loops::One(x)
        } else {
            Loops::Zero
        },
        Loops::Two(x, y) => {
            if is_inside(at, x) {
                if is_inside(at, y) {
                    Loops::Two(x, y)
                } else {
                    Loops::One(x)
                }
            } else {
                if is_inside(at, y) {
                    Loops::One(y)
                } else {
                    Loops::Zero
                }
            }
        }
    }
}

fn is_inside(at: u32, x: Loop) -> bool
    ensures { result ≡ is_in at (loop_of x) }
{
    x.first <= at && at <= x.last
}
