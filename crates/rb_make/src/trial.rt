//! A trial's two texts.

ghost use Rattle.std.specs.Prelude.{◌≡◌, ◌≤◌, IfOk, length};
ghost use Rattle.rb_make.specs.Trial.{added_of, processes_of, rounds_of, schedule, schedule_of, source_of};

use crate::piece::Piece::{Bytes, Number};
use crate::piece::push;
use crate::source::{Sizes, source_text};
use rb_base::MOST_BYTES;
use rb_base::text::Memory;
use std::alloc::Global;

/// The source and the schedule of the trial of this number. The two texts of one number are the same each time, and each is
/// short enough to be read.
pub fn make(alloc: Global, number: u64) -> Result<(Vec<u8>, Vec<u8>), Memory>
    ensures source { IfOk result (λ texts. texts.0.items ≡ source_of number) }
    ensures schedule { IfOk result (λ texts. texts.1.items ≡ schedule_of number) }
    ensures short { IfOk result (λ texts. (length texts.0.items ≤ MOST_BYTES) × (length texts.1.items ≤ MOST_BYTES)) }
{
    let sizes = sizes_of(number);
    let source = source_text(alloc, sizes)?;
    let schedule = schedule_text(alloc, sizes)?;
    Ok((source, schedule))
}

/// How many processes the trial of this number has.
pub fn process_count(number: u64) -> u64
    ensures { result ≡ processes_of number }
{
    2 + number % 31
}

fn sizes_of(number: u64) -> Sizes
    ensures processes { result.processes ≡ processes_of number }
    ensures rounds { result.rounds ≡ rounds_of number }
    ensures added { result.added ≡ added_of number }
{
    Sizes {
        processes: process_count(number),
        rounds: 1 + number / 31 % 50,
        added: number % 5,
    }
}

#[tactic(auto, unfolding(crate::specs::Trial::schedule))]
fn schedule_text(alloc: Global, sizes: Sizes) -> Result<Vec<u8>, Memory>
    ensures { IfOk result (λ text. text.items ≡ schedule sizes.processes sizes.rounds) }
{
    let mut text = Vec::new(alloc);
    let rounds = sizes.rounds * (8 * sizes.processes + 60);
    push(&mut text, &[Bytes(b"all "), Number(rounds), Bytes(b"\n")])?;
    Ok(text)
}
