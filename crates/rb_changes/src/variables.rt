//! The variables of a process that have other values now.

ghost use Rattle.std.specs.Prelude.{◌≡◌, ℤ, ◌<◌, ◌≤◌, ◌^◌, length, map, slice_get, Some};
ghost use Rattle.std.specs.List.{AllByRecursion, flat_map};
ghost use Rattle.rb_outside.specs.Puts.{Puts};
ghost use Rattle.rb_trace.specs.Fitting.{LiesWithin};
ghost use Rattle.rb_trace.specs.Naming.{variable_naming};
ghost use Rattle.rb_changes.specs.Changes.{element_of, index_word, is_value, value_change, value_line, value_lines, variable_change, words_in};

use crate::change::{write_element, write_scalar};
use rb_base::Variable;
use rb_outside::{Failed, Sink};

/// Writes the values of variables that are others now, from all words of their process before and now.
pub fn write_variables<'w, S: Sink>(
    out: &mut S,
    turn: u32,
    process: &'w [u8],
    variables: &'w [Variable],
    was: &[i64],
    now: &[i64],
) -> Result<(), Failed>
    requires before { AllByRecursion (LiesWithin (length was.now)) variables.now }
    requires after { AllByRecursion (LiesWithin (length now.now)) variables.now }
    requires few { length now.now < 2 ^ 32 }
    ensures { Puts (flat_map (variable_change turn process.now was.now now.now) (map variable_naming variables.now)) (S.written out.old)
        (S.written out.new) (S.faults out.old) (S.faults out.new) result }
{
    for variable in variables {
        write_variable(out, turn, process, variable, was, now)?;
    }
    Ok(())
}

fn write_variable<'w, S: Sink>(
    out: &mut S,
    turn: u32,
    process: &'w [u8],
    variable: &'w Variable,
    was: &[i64],
    now: &[i64],
) -> Result<(), Failed>
    requires before { LiesWithin (length was.now) variable.now }
    requires after { LiesWithin (length now.now) variable.now }
    requires few { length now.now < 2 ^ 32 }
    ensures { Puts (variable_change turn process.now was.now now.now (variable_naming variable.now)) (S.written out.old) (S.written out.new)
        (S.faults out.old) (S.faults out.new) result }
{
    write_values(
        out,
        turn,
        process,
        variable,
        words_of(variable, was),
        words_of(variable, now),
    )
}

// The words of a variable.
fn words_of<'w>(variable: &Variable, words: &'w [i64]) -> &'w [i64]
    requires { LiesWithin (length words.now) variable.now }
    ensures words { result.now ≡ words_in (variable_naming variable.now) words.now }
    ensures few { length result.now ≤ length words.now }
{
    let start = variable.at as usize;
    let count = match variable.size {
        None => 1,
        Some(size) => size as usize,
    };
    &words[start..start + count]
}

// The values of a variable that are others now, from those of its own words.
fn write_values<'w, S: Sink>(
    out: &mut S,
    turn: u32,
    process: &'w [u8],
    variable: &'w Variable,
    was: &[i64],
    now: &[i64],
) -> Result<(), Failed>
    requires { length now.now < 2 ^ 32 }
    ensures { Puts (value_lines turn process.now (variable_naming variable.now) was.now now.now) (S.written out.old) (S.written out.new)
        (S.faults out.old) (S.faults out.new) result }
{
    for k in 0..now.len() {
        write_changed(out, turn, process, variable, k as u32, was, now)?;
    }
    Ok(())
}

// A word, where there is one.
fn word_at(words: &[i64], k: usize) -> Option<i64>
    ensures { result ≡ slice_get words.now k }
{
    match words.get(k) {
        None => None,
        Some(word) => Some(*word),
    }
}

// The value of element k, if it was another or was not there.
fn write_changed<'w, S: Sink>(
    out: &mut S,
    turn: u32,
    process: &'w [u8],
    variable: &'w Variable,
    k: u32,
    was: &[i64],
    now: &[i64],
) -> Result<(), Failed>
    ensures { (value : ℤ) → slice_get now.now k ≡ Some value
        → Puts (value_change turn process.now (variable_naming variable.now) k (slice_get was.now k) value) (S.written out.old) (S.written out.new)
        (S.faults out.old) (S.faults out.new) result }
{
    match word_at(now, k as usize) {
        None => Ok(()),
        Some(value) => {
            let old = word_at(was, k as usize);
            write_if_other(out, turn, process, variable, k, old, value)
        }
    }
}

fn write_if_other<'w, S: Sink>(
    out: &mut S,
    turn: u32,
    process: &'w [u8],
    variable: &'w Variable,
    k: u32,
    was: Option<i64>,
    value: i64,
) -> Result<(), Failed>
    ensures { Puts (value_change turn process.now (variable_naming variable.now) k was value) (S.written out.old) (S.written out.new)
        (S.faults out.old) (S.faults out.new) result }
{
    if is_as_before(was, value) {
        Ok(())
    } else {
        write_value(out, turn, process, variable, k, value)
    }
}

// Whether a value was there, and was this one.
fn is_as_before(was: Option<i64>, value: i64) -> bool
    ensures { result ≡ is_value was value }
{
    match was {
        None => false,
        Some(old) => old == value,
    }
}

// The value of element k, or of a variable that is no array.
fn write_value<'w, S: Sink>(
    out: &mut S,
    turn: u32,
    process: &'w [u8],
    variable: &'w Variable,
    k: u32,
    value: i64,
) -> Result<(), Failed>
    ensures { Puts (value_line turn process.now variable.now.name (index_word (element_of variable.now.size k)) value) (S.written out.old)
        (S.written out.new) (S.faults out.old) (S.faults out.new) result }
{
    match variable.size {
        None => write_scalar(out, turn, process, variable.name.as_bytes(), value),
        Some(_) => write_element(out, turn, process, variable.name.as_bytes(), k, value),
    }
}
