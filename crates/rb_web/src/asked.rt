//! A program over texts that lie in memory, and what it writes and tells in places of the caller.
ghost use Rattle.std.specs.Prelude.{◌≡◌, ℕ, List, IfOk, OnErr, map};
ghost use Rattle.rb_web.specs.Asked.{AreWords};
ghost use Rattle.rb_web.specs.Called.{CallEnds, IsFront, SaysOnly};

use crate::front::put_front;
use crate::named::files_named;
use crate::over_texts::{Program, in_memory};
use crate::words::{text_of_words, words_in};
use rb_base::Memory;
use std::alloc::Global;

/// The exit status where memory is wanting.
const NO_MEMORY: u64 = 5;

/// The exit status where the words are no text.
const NO_TEXT: u64 = 6;

/// How a call ended: the exit status of the program, and how many bytes were written and told.
#[repr(C)]
#[derive(Clone, Copy)]
pub struct Ended {
    /// 0 to 6, as the exit status of the program.
    pub status: u64,
    /// How many bytes stand at the front of the place for what is written.
    pub written: usize,
    /// How many bytes stand at the front of the place for what is told.
    pub told: usize,
}

/// Carries out what the words, each ended by a byte 0, ask a program for. The files that the second word and those behind it name have these texts,
/// as many as there are; what is written goes to the front of `out`, and what is told to the front of `reason`. The status is that of the program;
/// 6 where the words are no UTF-8 or the last is not ended, and 5 where memory is wanting for words, files or places, with nothing written or told.
pub fn ask(
    alloc: Global,
    program: Program,
    words: &[u8],
    texts: &[&[u8]],
    out: &mut [u8],
    reason: &mut [u8],
) -> Ended
    ensures out { IsFront result.written out.old out.new }
    ensures reason { IsFront result.told reason.old reason.new }
    ensures ends { CallEnds program words.now (map (λ text. text.now) texts.now) out.new reason.new result }
{
    let Some(words) = text_of_words(words) else {
        return nothing_but(NO_TEXT);
    };
    match asked(alloc, program, words, texts, out, reason) {
        Ok(ended) => ended,
        Err(_) => nothing_but(NO_MEMORY),
    }
}

// The same for a text of words; it fails, with nothing written or told, where memory is wanting for words, files or places.
fn asked(
    alloc: Global,
    program: Program,
    words: &str,
    texts: &[&[u8]],
    out: &mut [u8],
    reason: &mut [u8],
) -> Result<Ended, Memory>
    requires { (given : List (List ℕ)) × AreWords words.now given }
    ensures out { IfOk result (λ ended. IsFront ended.written out.old out.new) }
    ensures reason { IfOk result (λ ended. IsFront ended.told reason.old reason.new) }
    ensures ends { IfOk result (λ ended. CallEnds program words.now (map (λ text. text.now) texts.now) out.new reason.new ended) }
    ensures stays { OnErr result ((out.new ≡ out.old) × (reason.new ≡ reason.old)) }
{
    let words = words_in(alloc, words)?;
    let files = files_named(alloc, words.list(), texts)?;
    let answer = in_memory(alloc, program, &words, files, out.len(), reason.len())?;
    put_front(out, answer.written());
    put_front(reason, answer.told());
    Ok(Ended {
        status: u64::from(answer.number()),
        written: answer.written().len(),
        told: answer.told().len(),
    })
}

// An end at which nothing was written.
fn nothing_but(status: u64) -> Ended
    ensures { SaysOnly status result }
{
    Ended {
        status,
        written: 0,
        told: 0,
    }
}
