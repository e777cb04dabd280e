//! The turns that one line of a schedule asks for, or the line's fault.

ghost use Rattle.std.specs.Prelude.{◌≡◌, ℕ, ◌<◌, ◌≤◌, ◌^◌, vec_len, Err, MatchResult};
ghost use Rattle.rb_base.specs.Bytes.{digits_value};
ghost use Rattle.rb_base.specs.Naming.{process_names};
ghost use Rattle.rb_sched.specs.Schedule.{whose, counted_line, line_turns};
ghost use Rattle.rb_sched.specs.Lines.{counted, fitting};

use crate::rounds::Rounds;
use crate::words::{next_word, without_comment, without_cr};
use rb_base::bytes::is_name;
use rb_base::numbers::{is_number, number_value};
use rb_base::{FaultName, MOST_TURNS, Names};

/// A count that is neither 0 nor above the greatest.
fn judged_count(digits: &[u8]) -> Result<u32, FaultName>
    ensures { result ≡ counted (digits_value 0 digits.now) }
{
    match number_value(digits) {
        Some(count) if count > 0 && count <= u64::from(MOST_TURNS) => Ok(count as u32),
        _ => Err(FaultName::T3),
    }
}

/// The turns of a name and a count.
fn named_rounds(name: &[u8], count: &[u8], names: &Names) -> Result<Rounds, FaultName>
    requires { vec_len names.now.processes < 2 ^ 32 }
    ensures { let known = process_names names.now in
        let answer = λ (before : ℕ). counted_line known before (whose known name.now) (digits_value 0 count.now) in
        MatchResult result
        (λ turns. (before : ℕ) → answer before ≡ fitting before turns)
        (λ fault. (before : ℕ) → answer before ≡ Err fault) }
{
    if b"all".as_slice() == name {
        let count = judged_count(count)?;
        return Ok(Rounds::of_all(names.processes.len() as u32, count));
    }
    let process = names.process(name).ok_or(FaultName::T2)?;
    let count = judged_count(count)?;
    Ok(Rounds::of_one(process, count))
}

/// The turns of a line, or its fault with the least number. That they may be too many with those that
/// came before is for the caller to see.
pub(crate) fn line_rounds(line: &[u8], names: &Names) -> Result<Rounds, FaultName>
    requires { vec_len names.now.processes < 2 ^ 32 }
    ensures { let answer = λ (before : ℕ). line_turns (process_names names.now) before line.now in
        MatchResult result
        (λ turns. (before : ℕ) → before ≤ MOST_TURNS → answer before ≡ fitting before turns)
        (λ fault. (before : ℕ) → answer before ≡ Err fault) }
{
    let Some((name, rest)) = next_word(without_comment(without_cr(line))) else {
        return Ok(Rounds::none());
    };
    let Some((count, rest)) = next_word(rest) else {
        return Err(FaultName::T1);
    };
    if next_word(rest).is_some() || !is_name(name) || !is_number(count) {
        return Err(FaultName::T1);
    }
    named_rounds(name, count, names)
}
