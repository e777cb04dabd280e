//! Instructions on the words and the calls of a process.

ghost use Rattle.std.specs.Prelude.{◌≡◌, ℕ, ◌+◌, ◌-◌, ◌*◌, ◌<◌, ◌≤◌, ◌^◌, ℤ, pos, cond, nat_le, List, [], ◌∷◌, length, Option};
ghost use Rattle.rb_base.specs.declared.limits.TheConstants.{MOST_OPERANDS};
ghost use Rattle.rb_base.specs.declared.event.Cause.TheVariants.{Calls, Stack};
ghost use Rattle.rb_meaning.specs.Environment.{natural};
ghost use Rattle.rb_meaning.specs.Step.{most_calls};
ghost use Rattle.rb_world.specs.Slots.{Slots};
ghost use Rattle.rb_world.specs.World.{copy_of, last_of};
ghost use Rattle.rb_code.specs.Instructions.Plain.{Code as Plain};
ghost use Rattle.rb_code.specs.WordMachine.Workspace.{Counting as Counts, Workspace, called, dropped, framed, word_at, written};
ghost use Rattle.rb_code.specs.WordMachine.Act.{Going, Sight as Seen, Trapped, arguments, below, on_top, returned};
ghost use Rattle.rb_code.specs.SoundCode.Safe.{HasCall, HasTop, StayAbove};
ghost use Rattle.rb_code.specs.SoundCode.Stays.{entry_calls};
ghost use Rattle.rb_code.specs.WordMachine.Turn.{prior_words};
ghost use Rattle.rb_operands.specs.Outcomes.{outcome_of};
ghost use Rattle.rb_proc.specs.Outcomes.{Keeps, mem};
ghost use Rattle.rb_recoverable.specs.Places.{most_places};

use rb_base::{Cause, MOST_OPEN_CALLS, Steps};
use rb_operands::Next;
use rb_operands::operands::Operands;
use rb_recoverable::recoverable::Recoverable;
use std::sync::ledger::Ledger;

/// Pushes a word.
#[inline(always)]
pub fn load<L: Ledger>(
    from: usize,
    at: usize,
    operands: &mut Operands<'_>,
    memory: &Recoverable<L>,
    steps: &mut Steps<L>,
) -> Next
    requires at { at + 1 < 2 ^ 32 }
    requires room { length operands.old < MOST_OPERANDS }
    requires there { from < length memory.now.words }
    ensures moved { (m : Workspace) → outcome_of result at operands.new m ≡ Going (at + 1) (word_at memory.now.words from ∷ operands.old) m }
    ensures ticks { steps.new ≤ steps.old + 1 }
{
    let word = memory.load(from, steps);
    operands.push(word);
    Next::Go(at + 1)
}

/// Pushes a word of the innermost copy.
#[inline(always)]
pub fn prior<L: Ledger>(
    from: usize,
    at: usize,
    operands: &mut Operands<'_>,
    memory: &Recoverable<L>,
    steps: &mut Steps<L>,
) -> Next
    requires at { at + 1 < 2 ^ 32 }
    requires room { length operands.old < MOST_OPERANDS }
    requires there { from < length (prior_words (copy_of (last_of memory.now.levels))) }
    ensures moved { (m : Workspace)
        → outcome_of result at operands.new m
        ≡ Going (at + 1) (word_at (prior_words (copy_of (last_of memory.now.levels))) from ∷ operands.old) m }
    ensures ticks { steps.new ≤ steps.old + 1 }
{
    let word = memory.prior(from, steps);
    operands.push(word);
    Next::Go(at + 1)
}

/// Pops an index, and pushes the word so far behind a place.
#[inline(always)]
pub fn load_at<L: Ledger>(
    first: usize,
    at: usize,
    operands: &mut Operands<'_>,
    memory: &Recoverable<L>,
    steps: &mut Steps<L>,
) -> Next
    requires at { at + 1 < 2 ^ 32 }
    requires small { first < 2 ^ 33 }
    requires there { HasTop operands.old (λ i rest. (k : ℕ) × (i ≡ pos k) × (first + k < length memory.now.words)) }
    ensures moved { (m : Workspace)
        → outcome_of result at operands.new m
        ≡ on_top operands.old (λ i rest. Going (at + 1) (word_at memory.now.words (first + natural i) ∷ rest) m) }
    ensures ticks { steps.new ≤ steps.old + 1 }
{
    let index = operands.pop();
    let word = memory.load(first + index as usize, steps);
    operands.push(word);
    Next::Go(at + 1)
}

/// The same in the innermost copy.
#[inline(always)]
pub fn prior_at<L: Ledger>(
    first: usize,
    at: usize,
    operands: &mut Operands<'_>,
    memory: &Recoverable<L>,
    steps: &mut Steps<L>,
) -> Next
    requires at { at + 1 < 2 ^ 32 }
    requires small { first < 2 ^ 33 }
    requires there { HasTop operands.old
        (λ i rest. (k : ℕ) × (i ≡ pos k) × (first + k < length (prior_words (copy_of (last_of memory.now.levels))))) }
    ensures moved { (m : Workspace)
        → outcome_of result at operands.new m
        ≡ on_top operands.old
        (λ i rest. Going (at + 1) (word_at (prior_words (copy_of (last_of memory.now.levels))) (first + natural i) ∷ rest) m) }
    ensures ticks { steps.new ≤ steps.old + 1 }
{
    let index = operands.pop();
    let word = memory.prior(first + index as usize, steps);
    operands.push(word);
    Next::Go(at + 1)
}

/// Pops a value into a word.
#[inline(always)]
pub fn store<L: Ledger>(
    to: usize,
    at: usize,
    operands: &mut Operands<'_>,
    memory: &mut Recoverable<L>,
    steps: &mut Steps<L>,
) -> Next
    requires at { at + 1 < 2 ^ 32 }
    requires one { 0 < length operands.old }
    requires some { 0 < to }
    requires there { to < length memory.old.words }
    ensures moved { (pieces : List (List ℕ)) (counters : List (Option Counts)) (slots : Slots)
        → outcome_of result at operands.new (mem memory.new pieces counters slots)
        ≡ on_top operands.old (λ x rest. Going (at + 1) rest (written to x (mem memory.old pieces counters slots))) }
    ensures kept { (slots : Slots) → Keeps result memory.old memory.new slots slots }
    ensures ticks { steps.new ≤ steps.old + 2 }
{
    let value = operands.pop();
    memory.store(to, value, steps);
    Next::Go(at + 1)
}

/// Pops a value, then an index, and stores the value so far behind a place.
#[inline(always)]
pub fn store_at<L: Ledger>(
    first: usize,
    at: usize,
    operands: &mut Operands<'_>,
    memory: &mut Recoverable<L>,
    steps: &mut Steps<L>,
) -> Next
    requires at { at + 1 < 2 ^ 32 }
    requires small { first < 2 ^ 33 }
    requires some { 0 < first }
    requires there { HasTop operands.old (λ x st. HasTop st (λ i rest. (k : ℕ) × (i ≡ pos k) × (first + k < length memory.old.words))) }
    ensures moved { (pieces : List (List ℕ)) (counters : List (Option Counts)) (slots : Slots)
        → outcome_of result at operands.new (mem memory.new pieces counters slots)
        ≡ on_top operands.old
        (λ x rest. on_top rest
        (λ i others. Going (at + 1) others (written (first + natural i) x (mem memory.old pieces counters slots)))) }
    ensures kept { (slots : Slots) → Keeps result memory.old memory.new slots slots }
    ensures ticks { steps.new ≤ steps.old + 2 }
{
    let value = operands.pop();
    let index = operands.pop();
    memory.store(first + index as usize, value, steps);
    Next::Go(at + 1)
}

/// So many words more, each 0, or the trap `stack`.
#[inline(always)]
pub fn frame<L: Ledger>(
    n: u32,
    most: u32,
    at: usize,
    memory: &mut Recoverable<L>,
    steps: &mut Steps<L>,
) -> Next
    requires at { at + 1 < 2 ^ 32 }
    requires few { most ≤ most_places }
    ensures moved { (operands : List ℤ) (pieces : List (List ℕ)) (counters : List (Option Counts)) (slots : Slots)
        → outcome_of result at operands (mem memory.new pieces counters slots)
        ≡ cond (nat_le (length memory.old.words + n) most)
        (Going (at + 1) operands (framed n (mem memory.old pieces counters slots))) (Trapped Stack) }
    ensures kept { (slots : Slots) → Keeps result memory.old memory.new slots slots }
    ensures ticks { steps.new ≤ steps.old + n }
{
    if u64::from(memory.height()) + u64::from(n) <= u64::from(most) {
        memory.push_frame(n, steps);
        Next::Go(at + 1)
    } else {
        Next::Trap(Cause::Stack)
    }
}

/// So many words fewer.
#[inline(always)]
pub fn drop_words<L: Ledger>(n: u32, at: usize, memory: &mut Recoverable<L>) -> Next
    requires at { at + 1 < 2 ^ 32 }
    requires words { n < length memory.old.words }
    requires copies { StayAbove memory.old.touched (length memory.old.words - n) }
    ensures moved { (operands : List ℤ) (pieces : List (List ℕ)) (counters : List (Option Counts)) (slots : Slots)
        → outcome_of result at operands (mem memory.new pieces counters slots)
        ≡ Going (at + 1) operands (dropped n (mem memory.old pieces counters slots)) }
    ensures kept { (slots : Slots) → Keeps result memory.old memory.new slots slots }
{
    memory.drop_frame(n);
    Next::Go(at + 1)
}

/// Opens a call with so many operands and so many zeros as its words, or the traps `calls` and `stack`.
#[inline(always)]
pub fn call<L: Ledger>(
    to: u32,
    count: u32,
    zeros: u32,
    most: u32,
    at: usize,
    operands: &mut Operands<'_>,
    memory: &mut Recoverable<L>,
    steps: &mut Steps<L>,
) -> Next
    requires at { at + 1 < 2 ^ 32 }
    requires few { most ≤ most_places }
    requires enough { count ≤ length operands.old }
    ensures moved { (pieces : List (List ℕ)) (counters : List (Option Counts)) (slots : Slots)
        → outcome_of result at operands.new (mem memory.new pieces counters slots)
        ≡ cond (nat_le most_calls (length memory.old.calls)) (Trapped Calls)
        (cond (nat_le (length memory.old.words + (count + zeros)) most)
        (Going to (below count operands.old)
        (called (at + 1) (arguments count operands.old) zeros (mem memory.old pieces counters slots)))
        (Trapped Stack)) }
    ensures kept { (slots : Slots) → Keeps result memory.old memory.new slots slots }
    ensures ticks { steps.new ≤ steps.old + 2 * (count + zeros) }
{
    if memory.open_calls() >= MOST_OPEN_CALLS as usize {
        return Next::Trap(Cause::Calls);
    }
    if u64::from(memory.height()) + (u64::from(count) + u64::from(zeros)) > u64::from(most) {
        return Next::Trap(Cause::Stack);
    }
    memory.open_call((at + 1) as u32, operands.top(count), zeros, steps);
    operands.drop_top(count);
    Next::Go(to as usize)
}

/// Goes back from the running call.
#[inline(always)]
pub fn go_back<L: Ledger>(at: usize, memory: &mut Recoverable<L>) -> Next
    requires call { HasCall memory.old.calls (λ call. (call.base ≤ length memory.old.words) × StayAbove memory.old.touched call.base) }
    requires levels { entry_calls (copy_of (last_of memory.old.levels)) < length memory.old.calls }
    ensures moved { (c : Plain) (see : Seen) (operands : List ℤ) (pieces : List (List ℕ)) (counters : List (Option Counts)) (slots : Slots)
        → outcome_of result at operands (mem memory.new pieces counters slots)
        ≡ returned c see memory.old.calls operands (mem memory.old pieces counters slots) }
    ensures kept { (slots : Slots) → Keeps result memory.old memory.new slots slots }
{
    Next::Go(memory.go_back() as usize)
}
