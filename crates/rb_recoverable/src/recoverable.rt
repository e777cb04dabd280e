//! What a process can recover: its words with the recovery cache, its open calls and its held lines.

ghost use Rattle.std.specs.Prelude.{◌≡◌, ◌<◌, ◌≤◌, pos, [], replicate, IfOk};
ghost use Rattle.rb_meaning.specs.Environment.{natural};
ghost use Rattle.rb_recoverable.specs.Places.{most_places};

mod calls;
mod levels;
mod lines;
mod looking;
mod putting_back;
mod words;

use rb_base::{MOST_OPEN_CALLS, MOST_OPEN_LEVELS, Memory, Steps};
use rb_cache::Cache;
use rb_cell::Cells;
use rb_hold::Hold;
use std::alloc::Global;
use std::marker::Model;
use std::sync::ledger::Ledger;

/// The most words of a process: the held length, the cursors of 64 channels, and 4,096 words of variables and frames.
pub const MOST_PLACES: u32 = 4_161;

/// An open call: the address behind it, and where its words begin.
#[derive(Clone, Copy)]
pub struct OpenCall {
    pub back: u32,
    pub base: u32,
}

/// What is known of a recovery block at its entry: its number, the line of its word `ensure`, its conversation, its turn bound, and how
/// many alternates it has.
#[derive(Clone, Copy)]
pub struct BlockFacts {
    pub number: u32,
    pub line: u32,
    pub conversation: Option<u32>,
    pub bound: u32,
    pub alternates: u32,
}

/// An open level: its block, the alternate that is tried, the clock when none of its turns was used, the deadline of the levels around it, and
/// of its copy all but the words: the address, how many calls were open, how many words there were, and the last kept turn.
#[derive(Clone, Copy)]
pub struct LevelMark {
    pub facts: BlockFacts,
    pub alternate: u32,
    pub since: u32,
    pub around: u32,
    pub at: u32,
    pub calls: usize,
    pub height: u32,
    pub last_kept: u32,
}

/// The words, the calls, the levels and the held lines of a process. One clock counts the turns of all open levels, up to the deadline with no
/// look at them. Contracts see a whole copy for each open level, and the turns that it used.
#[derive(Drop)]
pub struct Recoverable<L: Ledger> {
    cells: Cells<L>,
    cache: Cache,
    calls: Vec<OpenCall>,
    marks: Vec<LevelMark>,
    hold: Hold,
    clock: u32,
    deadline: u32,
}

impl<L: Ledger> Model for Recoverable<L> {
    ghost use Rattle.std.specs.Prelude.{vec_capacity};
    ghost use Rattle.rb_recoverable.specs.Contents.{Contents};

    ghost Value = { Contents };

    ghost use Rattle.rb_recoverable.specs.Inside.{contents, IsTied};

    ghost view = { λ r. contents r.clock r.cells.words r.cache r.calls.items r.marks.items r.hold };

    ghost invariant = { λ r. IsTied r.clock r.deadline r.cells r.cache r.calls.items (vec_capacity r.calls) r.marks.items (vec_capacity r.marks) r.hold };
}

impl<L: Ledger> Recoverable<L> {
    /// So many words, each 0, with no call and no level.
    pub fn new(alloc: Global, words: u32, steps: &mut Steps<L>) -> Result<Self, Memory>
        requires some { 0 < words }
        requires few { words ≤ most_places }
        ensures { IfOk result (λ r. r ≡ record { words = replicate words (pos 0); calls = []; held = []; touched = []; levels = []; waiting = [] }) }
    {
        let mut cells = Cells::new(alloc, MOST_PLACES)?;
        let cache = Cache::new(alloc, MOST_OPEN_LEVELS, MOST_PLACES)?;
        let calls = Vec::with_capacity(alloc, MOST_OPEN_CALLS as usize)?;
        let marks = Vec::with_capacity(alloc, MOST_OPEN_LEVELS as usize)?;
        let hold = Hold::new(alloc)?;
        cells.push_zeros(words, steps);
        Ok(Recoverable {
            cells,
            cache,
            calls,
            marks,
            hold,
            clock: 0,
            deadline: u32::MAX,
        })
    }
}

/// A number as a count; one below 0 is 0.
pub fn natural(word: i64) -> u64
    ensures { result ≡ natural word }
{
    if word < 0 { 0 } else { word as u64 }
}
