//! The open levels of a process that are others now, and to which of them it went back.

ghost use Rattle.std.specs.Prelude.{◌≡◌, ◌+◌, ◌-◌, ◌<◌, ◌^◌, length, slice_get};
ghost use Rattle.rb_outside.specs.Puts.{Puts};
ghost use Rattle.rb_changes.specs.Changes.{back_line, is_gone, is_level, is_same_level, level_change, level_lines, levels_changes, levels_line, put_back};

use crate::change::{write_back, write_depth, write_level};
use crate::noted::OpenLevel;
use rb_outside::{Failed, Sink};

/// Writes how many levels a process has open, if that is another number, and those that were others or were not there.
pub fn write_levels<'w, S: Sink>(
    out: &mut S,
    turn: u32,
    process: &'w [u8],
    was: &[OpenLevel],
    now: &[OpenLevel],
) -> Result<(), Failed>
    requires before { length was.now < 2 ^ 32 }
    requires after { length now.now < 2 ^ 32 - 1 }
    ensures { Puts (levels_changes turn process.now was.now now.now)
        (S.written out.old) (S.written out.new) (S.faults out.old) (S.faults out.new) result }
{
    write_count(out, turn, process, was.len() as u32, now.len() as u32)?;
    write_each(out, turn, process, was, now)
}

fn write_count<'w, S: Sink>(
    out: &mut S,
    turn: u32,
    process: &'w [u8],
    was: u32,
    now: u32,
) -> Result<(), Failed>
    ensures { Puts (levels_line turn process.now was now) (S.written out.old) (S.written out.new) (S.faults out.old) (S.faults out.new) result }
{
    if was == now {
        Ok(())
    } else {
        write_depth(out, turn, process, now)
    }
}

fn write_each<'w, S: Sink>(
    out: &mut S,
    turn: u32,
    process: &'w [u8],
    was: &[OpenLevel],
    now: &[OpenLevel],
) -> Result<(), Failed>
    requires { length now.now < 2 ^ 32 - 1 }
    ensures { Puts (level_lines turn process.now was.now now.now) (S.written out.old) (S.written out.new) (S.faults out.old)
        (S.faults out.new) result }
{
    for (k, level) in now.iter().enumerate() {
        write_changed(out, turn, process, k as u32, was, *level)?;
    }
    Ok(())
}

// A level, where there is one.
fn level_at(levels: &[OpenLevel], k: usize) -> Option<OpenLevel>
    ensures { result ≡ slice_get levels.now k }
{
    match levels.get(k) {
        None => None,
        Some(level) => Some(*level),
    }
}

// Level number k, counted from 0, if it was another or was not there.
fn write_changed<'w, S: Sink>(
    out: &mut S,
    turn: u32,
    process: &'w [u8],
    k: u32,
    was: &[OpenLevel],
    level: OpenLevel,
) -> Result<(), Failed>
    requires { k < 2 ^ 32 - 1 }
    ensures { Puts (level_change turn process.now (k + 1) (slice_get was.now k) level) (S.written out.old) (S.written out.new)
        (S.faults out.old) (S.faults out.new) result }
{
    write_if_other(out, turn, process, k + 1, level_at(was, k as usize), level)
}

fn write_if_other<'w, S: Sink>(
    out: &mut S,
    turn: u32,
    process: &'w [u8],
    k: u32,
    was: Option<OpenLevel>,
    level: OpenLevel,
) -> Result<(), Failed>
    ensures { Puts (level_change turn process.now k was level) (S.written out.old) (S.written out.new) (S.faults out.old)
        (S.faults out.new) result }
{
    if is_as_before(was, level) {
        Ok(())
    } else {
        write_level(out, turn, process, k, level)
    }
}

// Whether a level was there, and showed the same.
fn is_as_before(was: Option<OpenLevel>, level: OpenLevel) -> bool
    ensures { result ≡ is_level was level }
{
    match was {
        None => false,
        Some(old) => is_same(old, level),
    }
}

// Whether two levels show the same.
fn is_same(one: OpenLevel, other: OpenLevel) -> bool
    ensures { result ≡ is_same_level one other }
{
    one.block == other.block
        && one.alternate == other.alternate
        && one.used == other.used
        && one.entered == other.entered
}

/// Writes to which recovery point a process went back, if it did.
pub fn write_return<'w, S: Sink>(
    out: &mut S,
    turn: u32,
    process: &'w [u8],
    was: &[OpenLevel],
    now: &[OpenLevel],
) -> Result<(), Failed>
    ensures { Puts (back_line turn process.now (put_back was.now now.now)) (S.written out.old) (S.written out.new) (S.faults out.old)
        (S.faults out.new) result }
{
    match point_of(was, now) {
        None => Ok(()),
        Some(level) => write_back(out, turn, process, level.entered),
    }
}

// The first level that is gone or tries another alternate.
fn point_of(was: &[OpenLevel], now: &[OpenLevel]) -> Option<OpenLevel>
    ensures { result ≡ put_back was.now now.now }
{
    for (k, level) in was.iter().enumerate() {
        if is_gone(*level, level_at(now, k)) {
            return Some(*level);
        }
    }
    None
}

// Whether a level is gone or tries another alternate.
fn is_gone(was: OpenLevel, now: Option<OpenLevel>) -> bool
    ensures { result ≡ is_gone was now }
{
    match now {
        None => true,
        Some(level) => level.alternate != was.alternate,
    }
}
