//! The lines after the last turn: the end of the run, how each process stands, and its variables.

ghost use Rattle.std.specs.Prelude.{◌≡◌, [], ◌∷◌, ◌++◌, codes, decimal, map};
ghost use Rattle.std.specs.Fmt.{signed_decimal};
ghost use Rattle.rb_outside.specs.Puts.{Puts};
ghost use Rattle.rb_world.specs.Text.{line_of};
ghost use Rattle.rb_trace.specs.Ending.{state_words};
ghost use Rattle.rb_trace.specs.Lines.{spaced};

use crate::line::{put, put_after, put_line};
use itoa::Buffer;
use rb_base::State;
use rb_outside::{Failed, Sink};

/// Writes the line that ends a run of so many turns.
pub fn write_end_line<S: Sink>(out: &mut S, turns: u32) -> Result<(), Failed>
    ensures { Puts (line_of (codes "end" ∷ decimal turns ∷ [])) (S.written out.old) (S.written out.new) (S.faults out.old) (S.faults out.new) result }
{
    let mut buffer = Buffer::new();
    put_line(out, &[b"end", buffer.format(turns).as_bytes()])
}

/// Writes how a process of this name stands.
pub fn write_status<S: Sink>(out: &mut S, name: &[u8], state: State) -> Result<(), Failed>
    ensures { Puts (line_of (name.now ∷ state_words state)) (S.written out.old) (S.written out.new) (S.faults out.old) (S.faults out.new) result }
{
    match state {
        State::Done => put_line(out, &[name, b"done"]),
        State::Failed => put_line(out, &[name, b"failed"]),
        State::Running(levels) => {
            let mut buffer = Buffer::new();
            put_line(out, &[name, b"open", buffer.format(levels).as_bytes()])
        }
    }
}

/// Writes a variable of a process with its values.
pub fn write_variable<S: Sink>(
    out: &mut S,
    process: &[u8],
    variable: &[u8],
    values: &[i64],
) -> Result<(), Failed>
    ensures { Puts (line_of ((process.now ++ 46 ∷ variable.now) ∷ codes "=" ∷ map signed_decimal values.now))
        (S.written out.old) (S.written out.new) (S.faults out.old) (S.faults out.new) result }
{
    put_name(out, process, variable)?;
    put_numbers(out, values)
}

// The two names, with a dot between them.
pub(crate) fn put_name<S: Sink>(out: &mut S, process: &[u8], variable: &[u8]) -> Result<(), Failed>
    ensures { Puts (process.now ++ 46 ∷ variable.now) (S.written out.old) (S.written out.new) (S.faults out.old) (S.faults out.new) result }
{
    put(out, process)?;
    put_after(out, b".", variable)
}

fn put_numbers<S: Sink>(out: &mut S, values: &[i64]) -> Result<(), Failed>
    ensures { Puts (codes " =" ++ (spaced (map signed_decimal values.now) ++ 10 ∷ [])) (S.written out.old)
        (S.written out.new) (S.faults out.old) (S.faults out.new) result }
{
    put(out, b" =")?;
    put_values(out, values)?;
    put(out, b"\n")
}

// Each value with a blank before it.
fn put_values<S: Sink>(out: &mut S, values: &[i64]) -> Result<(), Failed>
    ensures { Puts (spaced (map signed_decimal values.now)) (S.written out.old) (S.written out.new) (S.faults out.old) (S.faults out.new) result }
{
    for value in values {
        put_value(out, value)?;
    }
    Ok(())
}

pub(crate) fn put_value<S: Sink>(out: &mut S, value: &i64) -> Result<(), Failed>
    ensures { Puts (codes " " ++ signed_decimal value.now) (S.written out.old) (S.written out.new) (S.faults out.old) (S.faults out.new) result }
{
    let mut buffer = Buffer::new();
    put_after(out, b" ", buffer.format(*value).as_bytes())
}
