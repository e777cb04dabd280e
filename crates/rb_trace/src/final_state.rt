//! The lines of how a run ended.

ghost use Rattle.std.specs.Prelude.{◌≡◌, ℕ, ◌+◌, ◌*◌, ◌^◌, ◌<◌, ◌≤◌, [], ◌∷◌, ◌++◌, codes, decimal, drop, length, map, slice_index, sum_by, take};
ghost use Rattle.std.specs.Fmt.{signed_decimal};
ghost use Rattle.rb_base.specs.Lines.{belonging};
ghost use Rattle.rb_outside.specs.Puts.{Puts};
ghost use Rattle.rb_world.specs.Text.{Final, end_text, values_text, line_of, variable_line, variable_lines, value_lines, channel_lines, size_of};
ghost use Rattle.rb_trace.specs.Naming.{naming, process_naming, variable_naming};
ghost use Rattle.rb_trace.specs.Lines.{spaced};
ghost use Rattle.rb_trace.specs.Fitting.{LiesWithin, ProcessFits, Fits};
ghost use Rattle.rb_trace.specs.Ended.{IsEndOf, numbers_printed, process_text, processes_text, words_of as words_in, words_printed};

use crate::ending::{put_name, put_value, write_end_line, write_status};
use crate::line::{put, put_line};
use itoa::Buffer;
use rb_base::names::{ProcessNames, Variable};
use rb_base::{Final, Names, State, Steps};
use rb_outside::{Failed, Sink};

/// Writes the ending of a run of so many turns: how each process stands, its variables, and what was sent and taken on
/// each channel.
pub fn write_end<S: Sink, M: Final>(
    out: &mut S,
    turns: u32,
    names: &Names,
    end: &M,
    steps: &mut Steps<M::Ledger>,
) -> Result<(), Failed>
    requires states { length (M.states end.now) ≡ length names.now.processes.items }
    requires fit { Fits names.now (M.words end.now) (M.sent end.now) (M.taken end.now) }
    ensures text { (final : Final) → IsEndOf (M.states end.now) (M.words end.now) (M.sent end.now) (M.taken end.now) final
        → Puts (end_text (naming names.now) turns final) (S.written out.old) (S.written out.new) (S.faults out.old) (S.faults out.new) result }
    ensures work { steps.new ≤ steps.old + numbers_printed (naming names.now) }
{
    write_end_line(out, turns)?;
    write_processes(out, names, end, steps)?;
    write_channels(out, names, end, steps)
}

/// Writes the variables of each process, and what was sent and taken on each channel.
pub fn write_values<S: Sink, M: Final>(
    out: &mut S,
    names: &Names,
    end: &M,
    steps: &mut Steps<M::Ledger>,
) -> Result<(), Failed>
    requires fit { Fits names.now (M.words end.now) (M.sent end.now) (M.taken end.now) }
    ensures text { (final : Final) → IsEndOf (M.states end.now) (M.words end.now) (M.sent end.now) (M.taken end.now) final
        → Puts (values_text (naming names.now) final) (S.written out.old) (S.written out.new) (S.faults out.old) (S.faults out.new) result }
    ensures work { steps.new ≤ steps.old + numbers_printed (naming names.now) }
{
    write_all_variables(out, names, end, steps)?;
    write_channels(out, names, end, steps)
}

fn write_processes<S: Sink, M: Final>(
    out: &mut S,
    names: &Names,
    end: &M,
    steps: &mut Steps<M::Ledger>,
) -> Result<(), Failed>
    requires states { length (M.states end.now) ≡ length names.now.processes.items }
    requires fit { Fits names.now (M.words end.now) (M.sent end.now) (M.taken end.now) }
    ensures text { Puts (processes_text (map process_naming names.now.processes.items) (M.states end.now) (M.words end.now))
        (S.written out.old) (S.written out.new) (S.faults out.old) (S.faults out.new) result }
    ensures work { steps.new ≤ steps.old + sum_by words_printed (map process_naming names.now.processes.items) }
{
    for (p, process) in names.processes.iter().enumerate() {
        let state = end.state(p as u32);
        write_process(out, p as u32, process, state, end, steps)?;
    }
    Ok(())
}

/// Writes how process p stands, and its variables. It takes no memory, and one tick at most for each word.
pub fn write_process<S: Sink, M: Final>(
    out: &mut S,
    p: u32,
    process: &ProcessNames,
    state: State,
    end: &M,
    steps: &mut Steps<M::Ledger>,
) -> Result<(), Failed>
    requires { ProcessFits process.now (belonging (M.words end.now) p) }
    ensures text { Puts (process_text (process_naming process.now) state (belonging (M.words end.now) p))
        (S.written out.old) (S.written out.new) (S.faults out.old) (S.faults out.new) result }
    ensures work { steps.new ≤ steps.old + words_printed (process_naming process.now) }
{
    write_status(out, process.name.as_bytes(), state)?;
    write_variables(out, p, process, end, steps)
}

fn write_all_variables<S: Sink, M: Final>(
    out: &mut S,
    names: &Names,
    end: &M,
    steps: &mut Steps<M::Ledger>,
) -> Result<(), Failed>
    requires fit { Fits names.now (M.words end.now) (M.sent end.now) (M.taken end.now) }
    ensures text { Puts (value_lines (map process_naming names.now.processes.items) (M.words end.now)) (S.written out.old)
        (S.written out.new) (S.faults out.old) (S.faults out.new) result }
    ensures work { steps.new ≤ steps.old + sum_by words_printed (map process_naming names.now.processes.items) }
{
    for (p, process) in names.processes.iter().enumerate() {
        write_variables(out, p as u32, process, end, steps)?;
    }
    Ok(())
}

fn write_variables<S: Sink, M: Final>(
    out: &mut S,
    p: u32,
    process: &ProcessNames,
    end: &M,
    steps: &mut Steps<M::Ledger>,
) -> Result<(), Failed>
    requires { ProcessFits process.now (belonging (M.words end.now) p) }
    ensures text { Puts (variable_lines (process_naming process.now) (belonging (M.words end.now) p)) (S.written out.old)
        (S.written out.new) (S.faults out.old) (S.faults out.new) result }
    ensures work { steps.new ≤ steps.old + words_printed (process_naming process.now) }
{
    for variable in &process.variables {
        write_words(out, p, process.name.as_bytes(), variable, end, steps)?;
    }
    Ok(())
}

// A variable of a process with its values.
fn write_words<S: Sink, M: Final>(
    out: &mut S,
    p: u32,
    process: &[u8],
    variable: &Variable,
    end: &M,
    steps: &mut Steps<M::Ledger>,
) -> Result<(), Failed>
    requires few { length (belonging (M.words end.now) p) < 2 ^ 32 }
    requires within { LiesWithin (length (belonging (M.words end.now) p)) variable.now }
    ensures text { Puts (variable_line process.now (belonging (M.words end.now) p) (variable_naming variable.now))
        (S.written out.old) (S.written out.new) (S.faults out.old) (S.faults out.new) result }
    ensures work { steps.new ≤ steps.old + words_in (variable_naming variable.now) }
{
    put_name(out, process, variable.name.as_bytes())?;
    put_words(out, p, variable.at, words_of(variable), end, steps)
}

// How many words a variable has.
fn words_of(variable: &Variable) -> u32
    ensures { result ≡ size_of variable.now.size }
{
    match variable.size {
        None => 1,
        Some(size) => size,
    }
}

fn put_words<S: Sink, M: Final>(
    out: &mut S,
    p: u32,
    at: u32,
    size: u32,
    end: &M,
    steps: &mut Steps<M::Ledger>,
) -> Result<(), Failed>
    requires few { length (belonging (M.words end.now) p) < 2 ^ 32 }
    requires within { at + size ≤ length (belonging (M.words end.now) p) }
    ensures text { Puts
        (codes " =" ++ (spaced (map signed_decimal (take size (drop at (belonging (M.words end.now) p)))) ++ 10 ∷ []))
        (S.written out.old) (S.written out.new) (S.faults out.old) (S.faults out.new) result }
    ensures work { steps.new ≤ steps.old + size }
{
    put(out, b" =")?;
    put_each_word(out, p, at, size, end, steps)?;
    put(out, b"\n")
}

// Each word with a blank before it.
fn put_each_word<S: Sink, M: Final>(
    out: &mut S,
    p: u32,
    at: u32,
    size: u32,
    end: &M,
    steps: &mut Steps<M::Ledger>,
) -> Result<(), Failed>
    requires few { length (belonging (M.words end.now) p) < 2 ^ 32 }
    requires within { at + size ≤ length (belonging (M.words end.now) p) }
    ensures text { Puts (spaced (map signed_decimal (take size (drop at (belonging (M.words end.now) p)))))
        (S.written out.old) (S.written out.new) (S.faults out.old) (S.faults out.new) result }
    ensures work { steps.new ≤ steps.old + size }
{
    for k in 0..size {
        put_value(out, &end.word(p, at + k, steps))?;
    }
    Ok(())
}

fn write_channels<S: Sink, M: Final>(
    out: &mut S,
    names: &Names,
    end: &M,
    steps: &mut Steps<M::Ledger>,
) -> Result<(), Failed>
    requires fit { Fits names.now (M.words end.now) (M.sent end.now) (M.taken end.now) }
    ensures text { Puts (channel_lines names.now.channels.items (M.sent end.now) (M.taken end.now)) (S.written out.old)
        (S.written out.new) (S.faults out.old) (S.faults out.new) result }
    ensures work { steps.new ≤ steps.old + 2 * length names.now.channels.items }
{
    for (c, name) in names.channels.iter().enumerate() {
        write_channel(out, c as u32, name.as_bytes(), end, steps)?;
    }
    Ok(())
}

fn write_channel<S: Sink, M: Final>(
    out: &mut S,
    c: u32,
    name: &[u8],
    end: &M,
    steps: &mut Steps<M::Ledger>,
) -> Result<(), Failed>
    requires sent { c < length (M.sent end.now) }
    requires taken { c < length (M.taken end.now) }
    ensures text { Puts
        (line_of (name.now ∷ codes "sent" ∷ decimal (slice_index (M.sent end.now) c) ∷ codes "taken"
        ∷ decimal (slice_index (M.taken end.now) c) ∷ []))
        (S.written out.old) (S.written out.new) (S.faults out.old) (S.faults out.new) result }
    ensures work { steps.new ≤ steps.old + 2 }
{
    let mut sent = Buffer::new();
    let mut taken = Buffer::new();
    let sent = sent.format(end.sent(c, steps)).as_bytes();
    let taken = taken.format(end.taken(c, steps)).as_bytes();
    put_line(out, &[name, b"sent", sent, b"taken", taken])
}
