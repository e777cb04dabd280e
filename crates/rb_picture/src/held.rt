//! The lines that a process holds, and how it stands, where that is another thing now.

ghost use Rattle.std.specs.Prelude.{◌≡◌, ◌-◌, ℕ, ◌<◌, ◌^◌, List, length, option_copied};
ghost use Rattle.rb_outside.specs.Puts.{Puts};
ghost use Rattle.rb_world.specs.World.{last_of};
ghost use Rattle.rb_changes.specs.Changes.{held_lines, is_same_stand, last_line, state_line};

use rb_changes::change::{write_failure, write_held, write_last_line, write_stand};
use rb_changes::noted::Stand;
use rb_outside::{Failed, Sink};

/// Writes how many lines a process holds, if that is another number, and the last of them, if they are one more.
pub fn write_holding<'w, S: Sink>(
    out: &mut S,
    turn: u32,
    process: &'w [u8],
    was: u32,
    now: u32,
    last: Option<&'w [u8]>,
) -> Result<(), Failed>
    requires { was < 2 ^ 32 - 1 }
    ensures { (held : List (List ℕ)) → length held ≡ now → option_copied last.entry ≡ last_of held → Puts (held_lines turn process.now was held)
        (S.written out.old) (S.written out.new) (S.faults out.old) (S.faults out.new) result }
{
    if was == now {
        return Ok(());
    }
    write_held(out, turn, process, now)?;
    if now == was + 1 {
        write_last(out, turn, process, now, last)
    } else {
        Ok(())
    }
}

fn write_last<'w, S: Sink>(
    out: &mut S,
    turn: u32,
    process: &'w [u8],
    number: u32,
    last: Option<&'w [u8]>,
) -> Result<(), Failed>
    ensures { Puts (last_line turn process.now number (option_copied last.entry)) (S.written out.old) (S.written out.new) (S.faults out.old)
        (S.faults out.new) result }
{
    match last {
        None => Ok(()),
        Some(line) => write_last_line(out, turn, process, number, line),
    }
}

/// Writes how a process stands, if it stood in another way.
pub fn write_standing<'w, S: Sink>(
    out: &mut S,
    turn: u32,
    process: &'w [u8],
    was: Stand,
    now: Stand,
) -> Result<(), Failed>
    ensures { Puts (state_line turn process.now was now) (S.written out.old) (S.written out.new) (S.faults out.old) (S.faults out.new) result }
{
    if is_same(was, now) {
        return Ok(());
    }
    match now {
        Stand::Runs => write_stand(out, turn, process, b"runs"),
        Stand::AtLine => write_stand(out, turn, process, b"line"),
        Stand::Done => write_stand(out, turn, process, b"done"),
        Stand::Failed(cause) => write_failure(out, turn, process, cause.word()),
    }
}

fn is_same(was: Stand, now: Stand) -> bool
    ensures { result ≡ is_same_stand was now }
{
    match (was, now) {
        (Stand::Runs, Stand::Runs) => true,
        (Stand::AtLine, Stand::AtLine) => true,
        (Stand::Done, Stand::Done) => true,
        (Stand::Failed(_), Stand::Failed(_)) => true,
        _ => false,
    }
}
