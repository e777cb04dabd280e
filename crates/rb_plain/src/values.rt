//! The values in which a plain run ends: the variables of each process, and how many values were sent on each channel and taken from it.

ghost use Rattle.std.specs.Prelude.{◌≡◌, length, map, slice_get, take, drop, codes, decimal, [], ◌∷◌, IfOk};
ghost use Rattle.rb_syntax.specs.Plain.{tree};
ghost use Rattle.rb_outside.specs.Puts.{Puts};
ghost use Rattle.rb_trace.specs.Fitting.{LiesWithin};
ghost use Rattle.rb_trace.specs.Naming.{naming, process_naming, variable_naming};
ghost use Rattle.rb_world.specs.Text.{channel_lines, line_of, size_of, value_lines, values_text, variable_line, variable_lines};
ghost use Rattle.rb_meaning.specs.Environment.{global_words};
ghost use Rattle.rb_meaning.specs.Groups.{channels_of, process_number};
ghost use Rattle.rb_meaning.specs.Meaning.{by_state, count_sent, count_taken, final_of, naming_of, sent_on, states_of, taken_on};
ghost use Rattle.rb_plain.specs.Played.{own_words, words_of_all, ProcessesLie, VariablesLie, Writes};
ghost use Rattle.rb_levels.specs.Worlds.{world_of};

use itoa::Buffer;
use rb_base::names::{ProcessNames, Variable};
use rb_base::{Memory, Names};
use rb_levels::{PlainAnswer, Process};
use rb_meaning::numbers::process_number;
use rb_outside::{Failed, Sink};
use rb_syntax::Program;
use rb_trace::{put_line, write_variable};
use rb_walk::Environment;
use std::alloc::Global;

/// Writes the variables of each process, and what was sent and taken on each channel.
pub(crate) fn write_values<'a, S: Sink>(
    alloc: Global,
    program: &Program<'a>,
    names: &Names,
    processes: &[Process<'_, 'a>],
    out: &mut S,
) -> Result<(), PlainAnswer>
    requires named { naming names.now ≡ naming_of (tree program.now) }
    requires lie { ProcessesLie names.now.processes.items (own_words (world_of (tree program.now) processes.now)) }
    ensures { Writes
        (values_text (naming names.now) (final_of (tree program.now) (world_of (tree program.now) processes.now)))
        (S.written out.old) (S.written out.new) (S.faults out.old) (S.faults out.new) result }
{
    write_all_variables(alloc, names, processes, out)?;
    write_channels(program, names, processes, out)?;
    Ok(())
}

// The variables of each process.
fn write_all_variables<S: Sink>(
    alloc: Global,
    names: &Names,
    processes: &[Process<'_, '_>],
    out: &mut S,
) -> Result<(), PlainAnswer>
    requires { ProcessesLie names.now.processes.items (words_of_all processes.now) }
    ensures { Writes (value_lines (map process_naming names.now.processes.items) (words_of_all processes.now))
        (S.written out.old) (S.written out.new) (S.faults out.old) (S.faults out.new) result }
{
    for (p, process) in names.processes.iter().enumerate() {
        write_variables(alloc, process, &processes[p].state.environment, out)?;
    }
    Ok(())
}

// The variables of a process.
fn write_variables<S: Sink>(
    alloc: Global,
    process: &ProcessNames,
    environment: &Environment<'_>,
    out: &mut S,
) -> Result<(), PlainAnswer>
    requires { VariablesLie process.now (global_words environment.now) }
    ensures { Writes (variable_lines (process_naming process.now) (global_words environment.now)) (S.written out.old)
        (S.written out.new) (S.faults out.old) (S.faults out.new) result }
{
    for variable in &process.variables {
        write_one(alloc, process.name.as_bytes(), variable, environment, out)?;
    }
    Ok(())
}

// A variable of a process of this name.
fn write_one<S: Sink>(
    alloc: Global,
    process: &[u8],
    variable: &Variable,
    environment: &Environment<'_>,
    out: &mut S,
) -> Result<(), PlainAnswer>
    requires { LiesWithin (length (global_words environment.now)) variable.now }
    ensures { Writes (variable_line process.now (global_words environment.now) (variable_naming variable.now))
        (S.written out.old) (S.written out.new) (S.faults out.old) (S.faults out.new) result }
{
    let values = values_of(alloc, variable, environment)?;
    write_variable(out, process, variable.name.as_bytes(), values.as_slice())?;
    Ok(())
}

// The values of a variable.
fn values_of(
    alloc: Global,
    variable: &Variable,
    environment: &Environment<'_>,
) -> Result<Vec<i64>, Memory>
    requires { LiesWithin (length (global_words environment.now)) variable.now }
    ensures { IfOk result (λ values. values.items ≡ take (size_of variable.now.size) (drop variable.now.at (global_words environment.now))) }
{
    let size = variable.size.unwrap_or(1) as usize;
    let mut values = Vec::with_capacity(alloc, size)?;
    for k in 0..size {
        values.push_reserved(environment.word(variable.at as usize + k));
    }
    Ok(values)
}

// What was sent and taken on each channel.
fn write_channels<'a, S: Sink>(
    program: &Program<'a>,
    names: &Names,
    processes: &[Process<'_, 'a>],
    out: &mut S,
) -> Result<(), Failed>
    requires { length names.now.channels.items ≡ length program.now.channels.items }
    ensures { let states = states_of (world_of (tree program.now) processes.now) in
        let channels = channels_of (tree program.now) in
        Puts (channel_lines names.now.channels.items (count_sent states 0 channels) (count_taken states 0 channels)) (S.written out.old) (S.written out.new) (S.faults out.old) (S.faults out.new) result }
{
    for (c, name) in names.channels.iter().enumerate() {
        let channel = &program.channels[c];
        let sent = sent_by(program, processes, channel.sender.text, c);
        let taken = taken_by(program, processes, channel.receiver.text, c);
        write_channel(out, name.as_bytes(), sent, taken)?;
    }
    Ok(())
}

// How many values the process of this name has sent on a channel.
fn sent_by<'a>(
    program: &Program<'a>,
    processes: &[Process<'_, 'a>],
    name: &[u8],
    channel: usize,
) -> usize
    ensures { result
        ≡ by_state (λ s. length (sent_on s channel)) 0
        (slice_get (states_of (world_of (tree program.now) processes.now)) (process_number (tree program.now) name.now)) }
{
    let p = process_number(program, name);
    if p >= processes.len() {
        return 0;
    }
    processes[p].state.sent_on(channel)
}

// How many values the process of this name has taken from a channel.
fn taken_by<'a>(
    program: &Program<'a>,
    processes: &[Process<'_, 'a>],
    name: &[u8],
    channel: usize,
) -> usize
    ensures { result
        ≡ by_state (λ s. taken_on s channel) 0
        (slice_get (states_of (world_of (tree program.now) processes.now)) (process_number (tree program.now) name.now)) }
{
    let p = process_number(program, name);
    if p >= processes.len() {
        return 0;
    }
    processes[p].state.taken_on(channel)
}

// The line of a channel.
fn write_channel<S: Sink>(out: &mut S, name: &[u8], sent: usize, taken: usize) -> Result<(), Failed>
    ensures { Puts (line_of (name.now ∷ codes "sent" ∷ decimal sent ∷ codes "taken" ∷ decimal taken ∷ []))
        (S.written out.old) (S.written out.new) (S.faults out.old) (S.faults out.new) result }
{
    let mut sent_buffer = Buffer::new();
    let mut taken_buffer = Buffer::new();
    let sent = sent_buffer.format(sent).as_bytes();
    let taken = taken_buffer.format(taken).as_bytes();
    put_line(out, &[name, b"sent", sent, b"taken", taken])
}
