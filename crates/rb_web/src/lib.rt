//! The commands of both programs over texts in memory: what each writes, what it tells, and how it ends; and, in this file, the exports by which a page
//! in a browser calls them, in which nothing is decided.
//!
//! # What a caller in C or in JavaScript must keep
//!
//! Contracts hold for calls from Rattle, which cannot break these rules. A caller from outside keeps them by itself:
//!
//! - A slice is passed as two numbers, its place and how many bytes it has; `Global` is passed as nothing. So a call has 14 numbers: place and length
//!   of `words`, then `count`, then place and length of each of the three texts, of `out` and of `reason`, and the place of `ended`.
//! - Every block lies in the module's memory, is all there for as long as the call runs, and was taken from the module's own heap, or lies where
//!   neither that heap nor the stack is. The place of a block of no bytes is any number but 0.
//! - `out`, `reason` and `ended` overlap no other block. Those that are only read may overlap one another.
//! - `ended` is three numbers of 8 bytes each, at a place that 8 divides: status, bytes written, bytes told.
//! - One call at a time: no call is made while another runs.
//! - After a call that did not return, as on a trap, the instance is not called again.
#![tactic(auto)]

pub mod asked;
pub mod front;
pub mod laws;
pub mod named;
pub mod over_texts;
pub mod room;
pub mod texts;
pub mod words;

ghost use Rattle.std.specs.Prelude.{◌≡◌, ◌≤◌, [], ◌∷◌, length, take, drop};
ghost use Rattle.rb_web.specs.Called.{CallEnds};
ghost use Rattle.rb_web.specs.declared.over_texts.Program.TheVariants.{Rbl, Rblview};

use asked::{Ended, ask};
use over_texts::Program;
use std::alloc::Global;

/// Carries out what the words ask `rbl` for over texts in memory.
///
/// `words` are those of the command line behind the program's name, in UTF-8, each with a byte 0 behind it: no words are no bytes, and an empty word
/// is one 0. Of the files that the second, the third and the fourth word name the first `count` are there, with the bytes of `first`, `second` and
/// `third`; more than 3 is as 3. Any other file is not there.
///
/// What the program writes goes to the front of `out`, which has room for as much as it has bytes, and what standard error is told to the front of
/// `reason`; what stands behind stays. `ended` gets how many bytes these are, and the exit status: 0 written, 1 refused, 2 the usage line, 3 a file
/// is not there, 4 `out` was too small (it is full then, and a call with a larger one may do more), 5 memory was wanting, 6 the words are no UTF-8,
/// or the last has no 0 behind it.
#[unsafe(no_mangle)]
pub extern "C" fn rbl_ask(
    alloc: Global,
    words: &[u8],
    count: usize,
    first: &[u8],
    second: &[u8],
    third: &[u8],
    out: &mut [u8],
    reason: &mut [u8],
    ended: &mut Ended,
)
    ensures fits { (ended.new.written ≤ length out.new) × (ended.new.told ≤ length reason.new) }
    ensures rest { (drop ended.new.written out.new ≡ drop ended.new.written out.old)
        × (drop ended.new.told reason.new ≡ drop ended.new.told reason.old) }
    ensures ends { CallEnds Rbl words.now (take count (first.now ∷ second.now ∷ third.now ∷ [])) out.new reason.new ended.new }
{
    let texts = [first, second, third];
    let texts = &texts[..count.min(3)];
    *ended = ask(alloc, Program::Rbl, words, texts, out, reason);
}

/// Carries out what the words ask `rblview` for, in the same way.
#[unsafe(no_mangle)]
pub extern "C" fn rblview_ask(
    alloc: Global,
    words: &[u8],
    count: usize,
    first: &[u8],
    second: &[u8],
    third: &[u8],
    out: &mut [u8],
    reason: &mut [u8],
    ended: &mut Ended,
)
    ensures fits { (ended.new.written ≤ length out.new) × (ended.new.told ≤ length reason.new) }
    ensures rest { (drop ended.new.written out.new ≡ drop ended.new.written out.old)
        × (drop ended.new.told reason.new ≡ drop ended.new.told reason.old) }
    ensures ends { CallEnds Rblview words.now (take count (first.now ∷ second.now ∷ third.now ∷ [])) out.new reason.new ended.new }
{
    let texts = [first, second, third];
    let texts = &texts[..count.min(3)];
    *ended = ask(alloc, Program::Rblview, words, texts, out, reason);
}
