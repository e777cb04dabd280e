//! A test of the cache, at the limits.

ghost use Rattle.std.specs.Prelude.{◌≡◌, ◌<◌, [], ◌∷◌, length};
ghost use Rattle.rb_cache.specs.Copies.{copies, entered, open_levels, Fits};

use rb_base::Steps;
use rb_cache::Cache;
use rb_cell::Cells;
use std::alloc::Global;
use std::marker::Brand;
use std::sync::ledger::{Blank, Ledger};

// In the only level: what is read of a word once 7 was written there, what it was before, and how many words there are once that is
// undone.
fn written_and_undone<L: Ledger>(
    cells: &mut Cells<L>,
    cache: &mut Cache,
    at: u32,
    steps: &mut Steps<L>,
) -> [i64; 3]
    requires fits { Fits cells.old.words cache.old }
    requires copies { copies cells.old.words cache.old ≡ cells.old.words ∷ [] }
    requires levels { open_levels cache.old ≡ entered (length cells.old.words) ∷ [] }
    requires at { at < length cells.old.words }
    requires within { at < cache.old.limits.words }
{
    cache.write(cells, at, 7, steps);
    let present = cells.read(at, steps);
    let prior = cache.prior(cells, at, steps);
    cache.reject(cells, steps);
    [present, prior, i64::from(cells.height())]
}

// The same of the last of so many words, in the first level that is opened.
fn seen<L: Ledger>(
    cells: &mut Cells<L>,
    cache: &mut Cache,
    words: u32,
    steps: &mut Steps<L>,
) -> [i64; 3]
    requires cells { cells.old ≡ record { words = []; limit = words } }
    requires none_open { cache.old.regions ≡ [] }
    requires levels { 0 < cache.old.limits.levels }
    requires within { cache.old.limits.words ≡ words }
    requires some { 0 < words }
{
    cells.push_zeros(words, steps);
    cache.open(cells);
    written_and_undone(cells, cache, words - 1, steps)
}

// Whether that is seen where so many levels over so many words may be open.
fn at_the_limits<L: Ledger>(alloc: Global, blank: Blank, levels: u32, words: u32) -> bool
    requires levels { 0 < levels }
    requires words { 0 < words }
    requires name { blank.name ≡ L.name }
    requires parts { blank.parts ≡ L.parts }
    requires backed { 0 < blank.parts }
{
    let mut steps = Steps::<L>::start(blank);
    let Ok(mut cells) = Cells::new(alloc, words) else {
        return false;
    };
    match Cache::new(alloc, levels, words) {
        Ok(mut cache) => {
            seen(&mut cells, &mut cache, words, &mut steps) == [7, 0, i64::from(words)]
        }
        Err(_) => false,
    }
}

/// As many levels as a process may have, over as many words as it may have: 4,096 of variables, a cursor for each of
/// 64 channels, and the length of its held lines.
#[test]
fn limits(rt: HostRuntime) {
    assert!(rt; at_the_limits::<Brand>(rt.alloc(), Blank::new(1), 32, 4_161));
}
