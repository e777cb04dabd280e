//! How many turns a text has, or its first fault, and its first line that has turns.

ghost use Rattle.std.specs.Prelude.{◌≡◌, ℕ, ◌+◌, ◌<◌, ◌≤◌, ◌^◌, List, [], ◌++◌, length, vec_len, Ok, Err, MatchResult};
ghost use Rattle.std.specs.Result.{IsOk};
ghost use Rattle.rb_base.specs.Naming.{process_names};
ghost use Rattle.rb_sched.specs.Schedule.{line_turns, schedule_of};
ghost use Rattle.rb_sched.specs.Walk.{GoesOn};

use crate::line::line_rounds;
use crate::rounds::Rounds;
use crate::words::first_line;
use rb_base::{FaultName, MOST_BYTES, MOST_TURNS, Names, TextFault};

/// How many turns there are up to a line and with it, or the line's fault.
fn with_line(before: u32, line: &[u8], names: &Names) -> Result<u32, FaultName>
    requires before { before ≤ MOST_TURNS }
    ensures { let answer = line_turns (process_names names.now) before line.now in
        MatchResult result
        (λ total. (turns : List ℕ) × (answer ≡ Ok turns) × (total ≡ before + length turns) × (total ≤ MOST_TURNS))
        (λ fault. answer ≡ Err fault) }
{
    let total = u64::from(before) + line_rounds(line, names)?.len();
    if total > u64::from(MOST_TURNS) {
        return Err(FaultName::T4);
    }
    Ok(total as u32)
}

/// How many turns a text has, or its first fault.
pub(crate) fn count_turns(text: &[u8], names: &Names) -> Result<u32, TextFault>
    requires short { length text.now ≤ MOST_BYTES }
    ensures { let answer = schedule_of (process_names names.now) text.now in
        MatchResult result
        (λ total. (turns : List ℕ) × (answer ≡ Ok turns) × (total ≡ length turns) × (total ≤ MOST_TURNS))
        (λ fault. answer ≡ Err fault) }
{
    let mut total = 0;
    let mut at = 1;
    let mut rest = text;
    while !rest.is_empty() {
        let (line, after) = first_line(rest);
        match with_line(total, line, names) {
            Ok(sum) => total = sum,
            Err(name) => return Err(TextFault { name, at }),
        }
        at += 1;
        rest = after;
    }
    Ok(total)
}

/// Goes to the first line that has turns: what it gives, and the text after it. At the end there is
/// neither.
pub(crate) fn first_turns<'a>(text: &'a [u8], names: &Names) -> (Rounds, &'a [u8])
    requires sound { IsOk (schedule_of (process_names names.now) text.now) }
    ensures goes_on { GoesOn (process_names names.now) text.now result.0 result.1.now }
    ensures ended { result.0 ≡ [] → result.1.now ≡ [] }
{
    let mut rest = text;
    while !rest.is_empty() {
        let (line, after) = first_line(rest);
        rest = after;
        let Ok(present) = line_rounds(line, names) else {
            unreachable!()
        };
        if !present.is_empty() {
            return (present, rest);
        }
    }
    (Rounds::none(), rest)
}
