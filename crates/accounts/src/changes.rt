//! Changes of a list of words that are made all together or not at all.

ghost use Rattle.std.specs.Prelude.{◌≡◌, ◌<◌, ◌≤◌, false, length};
ghost use Rattle.std.specs.List.{All};
ghost use Rattle.rb_cache.specs.Copies.{Fits, open_levels};
ghost use Rattle.accounts.specs.Same.{SameCopies};

use rb_base::Steps;
use rb_cache::Cache;
use rb_cell::Cells;
use std::sync::ledger::Ledger;

/// An amount that is added to the word at a place.
#[derive(Clone, Copy)]
pub struct Change {
    pub at: u32,
    pub amount: i64,
}

/// Makes changes one after another, in a level of its own. If a word would fall below 0 or overflow, all of them are taken back: the words
/// are what they were, and the answer is false.
pub fn change_all<L: Ledger>(
    words: &mut Cells<L>,
    cache: &mut Cache,
    changes: &[Change],
    steps: &mut Steps<L>,
) -> bool
    requires fits { Fits words.old.words cache.old }
    requires room { length (open_levels cache.old) < cache.old.limits.levels }
    requires places { All (λ (change : Change). change.at < length words.old.words) changes.now }
    requires within { length words.old.words ≤ cache.old.limits.words }
    ensures undone { result ≡ false → words.new ≡ words.old }
    ensures fits { Fits words.new.words cache.new }
    ensures levels { length (open_levels cache.new) ≡ length (open_levels cache.old) }
    ensures limits { cache.new.limits ≡ cache.old.limits }
    ensures words { length words.new.words ≡ length words.old.words }
{
    cache.open(words);
    if make_all(words, cache, changes, steps) {
        cache.accept(words);
        true
    } else {
        cache.reject(words, steps);
        cache.accept(words);
        false
    }
}

#[tactic(auto, using(crate::proofs::Levels::nothing_changed, crate::proofs::Levels::both_changed))]
// Makes changes until one of them can't be made.
fn make_all<L: Ledger>(
    words: &mut Cells<L>,
    cache: &mut Cache,
    changes: &[Change],
    steps: &mut Steps<L>,
) -> bool
    requires fits { Fits words.old.words cache.old }
    requires places { All (λ (change : Change). change.at < length words.old.words) changes.now }
    requires within { length words.old.words ≤ cache.old.limits.words }
    ensures { SameCopies words.old cache.old words.new cache.new }
{
    for change in changes {
        if !make(words, cache, *change, steps) {
            return false;
        }
    }
    true
}

#[tactic(auto, using(crate::proofs::Levels::length_changed))]
// Makes a change, if the word stays at 0 or above.
fn make<L: Ledger>(
    words: &mut Cells<L>,
    cache: &mut Cache,
    change: Change,
    steps: &mut Steps<L>,
) -> bool
    requires fits { Fits words.old.words cache.old }
    requires place { change.at < length words.old.words }
    requires within { length words.old.words ≤ cache.old.limits.words }
    ensures { SameCopies words.old cache.old words.new cache.new }
{
    match words.read(change.at, steps).checked_add(change.amount) {
        Some(value) if value >= 0 => {
            cache.write(words, change.at, value, steps);
            true
        }
        _ => false,
    }
}
