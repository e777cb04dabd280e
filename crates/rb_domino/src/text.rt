//! How what a failure leaves is written.

ghost use Rattle.std.specs.Prelude.{◌≡◌};
ghost use Rattle.std.specs.List.{flat_map};
ghost use Rattle.rb_outside.specs.Puts.{Puts};
ghost use Rattle.rb_domino.specs.Recovery.{line_of, message_at, outcome_of};
ghost use Rattle.rb_domino.specs.Written.{cause_text, drop_text, line_text, outcome_text, place_text, process_text, state_text};

use crate::analysis::{Analysis, Dropped, NOW};
use crate::history::History;
use crate::pieces::put_pieces;
use itoa::Buffer;
use rb_base::Text;
use rb_outside::{Failed, Sink};

/// Writes a line for each state that is given up, and then one for each process. After `Failed` a prefix of it was written.
pub fn write_analysis<S: Sink>(
    history: &History,
    analysis: &Analysis,
    out: &mut S,
) -> Result<(), Failed>
    requires drops { analysis.now.drops.items ≡ (outcome_of history.now).drops }
    requires line { analysis.now.line.items ≡ line_of (outcome_of history.now).left }
    ensures { Puts (outcome_text history.now (outcome_of history.now)) (S.written out.old) (S.written out.new) (S.faults out.old) (S.faults out.new) result }
{
    write_drops(history, analysis.drops.as_slice(), out)?;
    write_line(history.processes(), analysis.line.as_slice(), out)
}

// The states that are given up.
fn write_drops<S: Sink>(history: &History, drops: &[Dropped], out: &mut S) -> Result<(), Failed>
    ensures { Puts (flat_map (drop_text history.now) drops.now) (S.written out.old) (S.written out.new) (S.faults out.old) (S.faults out.new) result }
{
    for drop in drops {
        write_drop(history, *drop, out)?;
    }
    Ok(())
}

fn write_drop<S: Sink>(history: &History, drop: Dropped, out: &mut S) -> Result<(), Failed>
    ensures { Puts (drop_text history.now drop) (S.written out.old) (S.written out.new) (S.faults out.old) (S.faults out.new) result }
{
    let mut digits = Buffer::new();
    let process = process_name(history, drop.process);
    let state = state_name(drop.state, &mut digits);
    let cause = cause_name(history, drop.message);
    put_pieces(
        out,
        &[b"drop ", process, b" ", state, b" by ", cause, b"\n"],
    )
}

// Where each process stands.
fn write_line<S: Sink>(names: &[Text], states: &[u32], out: &mut S) -> Result<(), Failed>
    ensures { Puts (line_text names.now states.now) (S.written out.old) (S.written out.new) (S.faults out.old) (S.faults out.new) result }
{
    for p in 0..names.len().min(states.len()) {
        write_place(names[p].as_bytes(), states[p], out)?;
    }
    Ok(())
}

fn write_place<S: Sink>(name: &[u8], state: u32, out: &mut S) -> Result<(), Failed>
    ensures { Puts (place_text name.now state) (S.written out.old) (S.written out.new) (S.faults out.old) (S.faults out.new) result }
{
    let mut digits = Buffer::new();
    let state = state_name(state, &mut digits);
    put_pieces(out, &[b"line ", name, b" ", state, b"\n"])
}

// The number of a state, or `now`.
fn state_name(state: u32, digits: &mut Buffer) -> &[u8]
    ensures { result.now ≡ state_text state }
{
    if state == NOW {
        b"now"
    } else {
        digits.format(state).as_bytes()
    }
}

fn process_name(history: &History, process: u32) -> &[u8]
    ensures { result.now ≡ process_text history.now process }
{
    match history.processes().get(process as usize) {
        Some(name) => name.as_bytes(),
        None => b"",
    }
}

// The name of a message, or `fail` for none.
fn cause_name(history: &History, message: Option<u32>) -> &[u8]
    ensures { result.now ≡ cause_text history.now message }
{
    match message {
        Some(m) => message_name(history, m),
        None => b"fail",
    }
}

fn message_name(history: &History, m: u32) -> &[u8]
    ensures { result.now ≡ (message_at history.now m).name }
{
    match history.messages().get(m as usize) {
        Some(message) => message.name.as_bytes(),
        None => b"",
    }
}
