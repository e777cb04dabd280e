//! A list of words in which each word that is touched is counted.

ghost use Rattle.std.specs.Prelude.{◌≡◌, ℕ, ◌+◌, ◌<◌, ◌≤◌, pos, [], ◌++◌, length, take, replicate, slice_set, get_or, IfOk, vec_len, vec_capacity};

use rb_base::{Memory, Steps};
use std::alloc::Global;
use std::marker::{Model, PhantomData};
use std::sync::ledger::Ledger;

/// A list of words, with room for so many of them. The words lie behind calls that count: each word that is
/// read, written or zeroed is a step of the ledger `L`.
#[derive(Drop)]
pub struct Cells<L: Ledger> {
    words: Vec<i64>,
    limit: u32,
    ledger: PhantomData<L>,
}

impl<L: Ledger> Model for Cells<L> {
    ghost use Rattle.std.specs.Prelude.{◌≤◌, vec_len, vec_capacity};
    ghost use Rattle.rb_cell.specs.Store.{Store};

    ghost Value = { Store };

    ghost view = { λ c. record { words = c.words.items; limit = c.limit } };

    ghost invariant = { λ c. (vec_len c.words ≤ c.limit) × (c.limit ≤ vec_capacity c.words) };
}

/// Appends zeros where there is room for them.
fn push_all<L: Ledger>(words: &mut Vec<i64>, n: u32, steps: &mut Steps<L>)
    requires { vec_len words.old + n ≤ vec_capacity words.old }
    ensures words { words.new.items ≡ words.old.items ++ replicate n (pos 0) }
    ensures len { vec_len words.new ≡ vec_len words.old + n }
    ensures room { vec_capacity words.old ≤ vec_capacity words.new }
    ensures ticks { steps.new ≡ steps.old + n }
{
    for _i in 0..n {
        steps.tick();
        words.push_reserved(0);
    }
}

impl<L: Ledger> Cells<L> {
    /// No words yet, and room for `limit` of them. No other call takes memory; `Memory` if it is wanting.
    pub fn new(alloc: Global, limit: u32) -> Result<Self, Memory>
        ensures { IfOk result (λ cells. cells ≡ record { words = []; limit = limit }) }
    {
        let words = Vec::with_capacity(alloc, limit as usize)?;
        Ok(Cells {
            words,
            limit,
            ledger: PhantomData,
        })
    }

    /// How many words there are.
    pub fn height(&self) -> u32
        ensures words { result ≡ length self.now.words }
        ensures limit { result ≤ self.now.limit }
    {
        // Read for its range: there are at most so many words.
        let _limit = self.limit;
        self.words.len() as u32
    }

    /// The word at a place, for one tick.
    pub fn read(&self, at: u32, steps: &mut Steps<L>) -> i64
        requires { at < length self.now.words }
        ensures word { result ≡ get_or self.now.words at (pos 0) }
        ensures ticks { steps.new ≡ steps.old + 1 }
    {
        let word = self.words[at as usize];
        steps.tick();
        word
    }

    /// Changes the word at a place, for one tick.
    pub fn write(&mut self, at: u32, value: i64, steps: &mut Steps<L>)
        requires { at < length self.old.words }
        ensures words { self.new ≡ record { words = slice_set self.old.words at value; limit = self.old.limit } }
        ensures ticks { steps.new ≡ steps.old + 1 }
    {
        self.words[at as usize] = value;
        steps.tick();
    }

    /// Appends `n` zeros, for a tick each.
    pub fn push_zeros(&mut self, n: u32, steps: &mut Steps<L>)
        requires { length self.old.words + n ≤ self.old.limit }
        ensures words { self.new ≡ record { words = self.old.words ++ replicate n (pos 0); limit = self.old.limit } }
        ensures ticks { steps.new ≡ steps.old + n }
    {
        push_all(&mut self.words, n, steps);
    }

    /// Only the first `height` words stay. No word is touched.
    pub fn drop_to(&mut self, height: u32)
        requires { height ≤ length self.old.words }
        ensures { self.new ≡ record { words = take height self.old.words; limit = self.old.limit } }
    {
        self.words.truncate(height as usize);
    }
}
