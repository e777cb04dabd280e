//! The summary of a trial.
ghost use Rattle.std.specs.Prelude.{◌≡◌, ◌++◌, [], ◌∷◌, codes, decimal};
ghost use Rattle.rb_outside.specs.Puts.{Puts};
ghost use Rattle.rb_make.specs.Trial.{processes_of};
ghost use Rattle.rb_run.specs.Counting.{counts};
ghost use Rattle.rb_world.specs.Text.{line_of};
ghost use Rattle.rb_verdict.specs.Summary.{counts_line, summary_of};

use itoa::Buffer;
use rb_make::process_count;
use rb_outside::{Failed, Sink};
use rb_run::Counts;
use rb_trace::put_line;

/// Writes the summary of the trial of a number: how many processes it has, how many turns its schedule has, and how many lines of each kind
/// its run would print.
pub fn put_summary<S: Sink>(
    out: &mut S,
    number: u64,
    turns: u32,
    counted: Counts,
) -> Result<(), Failed>
    ensures { Puts (summary_of number turns (counts counted)) (S.written out.old) (S.written out.new) (S.faults out.old) (S.faults out.new) result }
{
    put_number(out, b"trial", number)?;
    put_processes(out, number)?;
    put_turns(out, turns)?;
    put_counts(out, counted)
}

// A line of a word and a number.
fn put_number<S: Sink>(out: &mut S, word: &[u8], number: u64) -> Result<(), Failed>
    ensures { Puts (line_of (word.now ∷ decimal number ∷ [])) (S.written out.old) (S.written out.new) (S.faults out.old) (S.faults out.new) result }
{
    let mut numbers = Buffer::new();
    put_word(out, word, numbers.format(number).as_bytes())
}

// The line of the processes.
fn put_processes<S: Sink>(out: &mut S, number: u64) -> Result<(), Failed>
    ensures { Puts (line_of (codes "processes" ∷ decimal (processes_of number) ∷ [])) (S.written out.old)
        (S.written out.new) (S.faults out.old) (S.faults out.new) result }
{
    put_number(out, b"processes", process_count(number))
}

// The line of the turns.
fn put_turns<S: Sink>(out: &mut S, turns: u32) -> Result<(), Failed>
    ensures { Puts (line_of (codes "turns" ∷ decimal turns ∷ [])) (S.written out.old) (S.written out.new) (S.faults out.old)
        (S.faults out.new) result }
{
    put_number(out, b"turns", u64::from(turns))
}

// The references of one list have one lifetime.
fn put_word<'w, S: Sink>(out: &mut S, word: &'w [u8], number: &'w [u8]) -> Result<(), Failed>
    ensures { Puts (line_of (word.now ∷ number.now ∷ [])) (S.written out.old) (S.written out.new) (S.faults out.old) (S.faults out.new) result }
{
    put_line(out, &[word, number])
}

// The line of the counts.
fn put_counts<S: Sink>(out: &mut S, counted: Counts) -> Result<(), Failed>
    ensures { Puts (counts_line (counts counted)) (S.written out.old) (S.written out.new) (S.faults out.old) (S.faults out.new) result }
{
    let mut outs = Buffer::new();
    let mut rejects = Buffer::new();
    let mut passes = Buffer::new();
    let mut errors = Buffer::new();
    let mut ends = Buffer::new();
    let out_lines = outs.format(counted.out).as_bytes();
    let reject = rejects.format(counted.reject).as_bytes();
    let pass = passes.format(counted.pass).as_bytes();
    let error = errors.format(counted.error).as_bytes();
    let done = ends.format(counted.done).as_bytes();
    put_line(
        out,
        &[
            b"out", out_lines, b"reject", reject, b"pass", pass, b"error", error, b"done", done,
        ],
    )
}
