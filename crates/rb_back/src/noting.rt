//! What a turn changed, noted where what was shown before it differs from how a machine stands after it.

ghost use Rattle.std.specs.Prelude.{◌≡◌, ℕ, ◌+◌, ◌-◌, ◌<◌, ◌≤◌, ◌^◌, ℤ, List, [], ◌∷◌, ◌++◌, true, length, take, drop, vec_len, vec_capacity, slice_get, slice_set, sum_by, Some};
ghost use Rattle.rb_base.specs.Lines.{belonging};
ghost use Rattle.rb_back.specs.Noting.{AreAlike, AreSameWithin, Notes, OthersAreSame};
ghost use Rattle.rb_back.specs.Picture.{picture, with_word};
ghost use Rattle.rb_back.specs.Stores.{AreSameBut};

use crate::stores::Stores;
use crate::view::{Change, View};
use rb_base::{Final, State, Steps};
use std::sync::ledger::Ledger;

/// How many words are compared at once.
const BLOCK: u32 = 64;

/// Shows how a machine stands, and notes what that changes. Where a turn of process p left the words of all others alone, its words alone
/// are compared, and of these only those where it may have stored.
pub(crate) fn note_turn<M: Final>(
    view: &mut View<M::Ledger>,
    machine: &M,
    p: u32,
    alone: bool,
    stores: Stores,
    changes: &mut Vec<Change>,
    steps: &mut Steps<M::Ledger>,
)
    requires states { length (picture view.old).states ≡ length (M.states machine.now) }
    requires words { AreAlike (picture view.old).words (M.words machine.now) }
    requires numbered { length (M.states machine.now) + length (M.words machine.now) < 2 ^ 32 }
    requires alone { alone ≡ true → OthersAreSame p (picture view.old).words (M.words machine.now) }
    requires stores { alone ≡ true → AreSameBut (Some stores) (belonging (picture view.old).words p) (belonging (M.words machine.now) p) }
    requires room { vec_len changes.old + (length (picture view.old).states + sum_by length (picture view.old).words) ≤ vec_capacity changes.old }
    ensures view { picture view.new ≡ record { states = M.states machine.now; words = M.words machine.now } }
    ensures noted { Notes (M.words machine.now) changes.old.items changes.new.items (picture view.old) (picture view.new) }
    ensures room { vec_capacity changes.old ≤ vec_capacity changes.new }
{
    note_states(view, machine, changes);
    if !alone {
        note_all_words(view, machine, changes, steps);
    } else if (p as usize) < view.words.len() {
        note_words(view, machine, p, stores, changes, steps);
    }
}

// How each process stands.
fn note_states<M: Final>(view: &mut View<M::Ledger>, machine: &M, changes: &mut Vec<Change>)
    requires states { length (picture view.old).states ≡ length (M.states machine.now) }
    requires numbered { length (M.states machine.now) < 2 ^ 32 }
    requires room { vec_len changes.old + length (picture view.old).states ≤ vec_capacity changes.old }
    ensures view { picture view.new ≡ record (picture view.old) { states = M.states machine.now } }
    ensures noted { (target : List (List ℤ)) → Notes target changes.old.items changes.new.items (picture view.old) (picture view.new) }
    ensures len { vec_len changes.new ≤ vec_len changes.old + length (picture view.old).states }
    ensures room { vec_capacity changes.old ≤ vec_capacity changes.new }
{
    for p in 0..view.states.len() {
        note_state(view, p as u32, machine.state(p as u32), changes);
    }
}

// How a process stands.
fn note_state<L: Ledger>(view: &mut View<L>, process: u32, now: State, changes: &mut Vec<Change>)
    requires there { process < length (picture view.old).states }
    requires room { vec_len changes.old < vec_capacity changes.old }
    ensures view { picture view.new ≡ record (picture view.old) { states = slice_set (picture view.old).states process now } }
    ensures noted { (target : List (List ℤ)) → Notes target changes.old.items changes.new.items (picture view.old) (picture view.new) }
    ensures len { vec_len changes.new ≤ vec_len changes.old + 1 }
    ensures room { vec_capacity changes.old ≤ vec_capacity changes.new }
{
    let before = view.states[process as usize];
    if before != now {
        view.states[process as usize] = now;
        note(
            changes,
            Change::Standing {
                process,
                before,
                after: now,
            },
        );
    }
}

// The words of each process.
fn note_all_words<M: Final>(
    view: &mut View<M::Ledger>,
    machine: &M,
    changes: &mut Vec<Change>,
    steps: &mut Steps<M::Ledger>,
)
    requires words { AreAlike (picture view.old).words (M.words machine.now) }
    requires numbered { length (M.words machine.now) < 2 ^ 32 }
    requires room { vec_len changes.old + sum_by length (picture view.old).words ≤ vec_capacity changes.old }
    ensures view { picture view.new ≡ record (picture view.old) { words = M.words machine.now } }
    ensures noted { Notes (M.words machine.now) changes.old.items changes.new.items (picture view.old) (picture view.new) }
    ensures room { vec_capacity changes.old ≤ vec_capacity changes.new }
{
    for p in 0..view.words.len() {
        let all = Stores {
            from: 0,
            to: view.words[p].height(),
        };
        note_words(view, machine, p as u32, all, changes, steps);
    }
}

// The words of a process where it may have stored. Most blocks of them have not changed.
fn note_words<M: Final>(
    view: &mut View<M::Ledger>,
    machine: &M,
    process: u32,
    stores: Stores,
    changes: &mut Vec<Change>,
    steps: &mut Steps<M::Ledger>,
)
    requires there { process < length (picture view.old).words }
    requires words { length (belonging (picture view.old).words process) ≡ length (belonging (M.words machine.now) process) }
    requires stores { AreSameBut (Some stores) (belonging (picture view.old).words process) (belonging (M.words machine.now) process) }
    requires room { vec_len changes.old + length (belonging (picture view.old).words process) ≤ vec_capacity changes.old }
    ensures view { picture view.new
        ≡ record (picture view.old) { words = slice_set (picture view.old).words process (belonging (M.words machine.now) process) } }
    ensures noted { Notes (M.words machine.now) changes.old.items changes.new.items (picture view.old) (picture view.new) }
    ensures len { vec_len changes.new ≤ vec_len changes.old + length (belonging (picture view.old).words process) }
    ensures room { vec_capacity changes.old ≤ vec_capacity changes.new }
{
    let height = view.words[process as usize].height();
    let end = stores.to.min(height);
    let mut from = stores.from.min(height);
    while from < end {
        let to = from + BLOCK.min(end - from);
        if !are_same(view, machine, process, from, to, steps) {
            note_block(view, machine, process, from, to, changes, steps);
        }
        from = to;
    }
}

// Whether a block of words of a process has not changed. Without a way out of the loop it takes several words at once.
fn are_same<M: Final>(
    view: &View<M::Ledger>,
    machine: &M,
    process: u32,
    from: u32,
    to: u32,
    steps: &mut Steps<M::Ledger>,
) -> bool
    requires there { process < length (picture view.now).words }
    requires within { to ≤ length (belonging (picture view.now).words process) }
    requires words { length (belonging (picture view.now).words process) ≡ length (belonging (M.words machine.now) process) }
    ensures { result ≡ true → AreSameWithin from to (belonging (picture view.now).words process) (belonging (M.words machine.now) process) }
{
    let words = &view.words[process as usize];
    let mut same = true;
    for at in from..to {
        same &= words.read(at, steps) == machine.word(process, at, steps);
    }
    same
}

// The words of a block.
fn note_block<M: Final>(
    view: &mut View<M::Ledger>,
    machine: &M,
    process: u32,
    from: u32,
    to: u32,
    changes: &mut Vec<Change>,
    steps: &mut Steps<M::Ledger>,
)
    requires there { process < length (picture view.old).words }
    requires block { from ≤ to }
    requires before { take from (belonging (picture view.old).words process) ≡ take from (belonging (M.words machine.now) process) }
    requires within { to ≤ length (belonging (picture view.old).words process) }
    requires words { length (belonging (picture view.old).words process) ≡ length (belonging (M.words machine.now) process) }
    requires room { vec_len changes.old + (to - from) ≤ vec_capacity changes.old }
    ensures view { picture view.new
        ≡ record (picture view.old) {
          words =
              slice_set (picture view.old).words process
              (take to (belonging (M.words machine.now) process) ++ drop to (belonging (picture view.old).words process));
        } }
    ensures noted { Notes (M.words machine.now) changes.old.items changes.new.items (picture view.old) (picture view.new) }
    ensures len { vec_len changes.new ≤ vec_len changes.old + (to - from) }
    ensures room { vec_capacity changes.old ≤ vec_capacity changes.new }
{
    for at in from..to {
        let now = machine.word(process, at, steps);
        note_word(view, process, at, now, changes, steps);
    }
}

// A word of a process.
fn note_word<L: Ledger>(
    view: &mut View<L>,
    process: u32,
    at: u32,
    now: i64,
    changes: &mut Vec<Change>,
    steps: &mut Steps<L>,
)
    requires there { process < length (picture view.old).words }
    requires at { at < length (belonging (picture view.old).words process) }
    requires room { vec_len changes.old < vec_capacity changes.old }
    ensures view { picture view.new ≡ record (picture view.old) { words = with_word process at now (picture view.old).words } }
    ensures noted { (target : List (List ℤ)) → slice_get (belonging target process) at ≡ Some now
        → Notes target changes.old.items changes.new.items (picture view.old) (picture view.new) }
    ensures len { vec_len changes.new ≤ vec_len changes.old + 1 }
    ensures room { vec_capacity changes.old ≤ vec_capacity changes.new }
{
    let before = view.words[process as usize].read(at, steps);
    if before != now {
        view.words[process as usize].write(at, now, steps);
        note(
            changes,
            Change::Word {
                process,
                at,
                before,
                after: now,
            },
        );
    }
}

// Notes a change, for which there is room.
fn note(changes: &mut Vec<Change>, change: Change)
    requires { vec_len changes.old < vec_capacity changes.old }
    ensures items { changes.new.items ≡ changes.old.items ++ change ∷ [] }
    ensures len { vec_len changes.new ≡ vec_len changes.old + 1 }
    ensures room { vec_capacity changes.old ≤ vec_capacity changes.new }
{
    changes.push(change).unwrap();
}
