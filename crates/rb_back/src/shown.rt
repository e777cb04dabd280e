//! What is shown of a process at a session's position.

ghost use Rattle.std.specs.Prelude.{◌≡◌, ◌+◌, ◌<◌, ◌≤◌, length, slice_get};
ghost use Rattle.rb_outside.specs.Puts.{Puts};
ghost use Rattle.rb_run.specs.Running.{NamesFit};
ghost use Rattle.rb_trace.specs.Naming.{naming};
ghost use Rattle.rb_script.specs.Shown.{position_line, word_shown, words_shown};

use crate::session::Session;
use itoa::Buffer;
use rb_base::{Final, Names, Steps};
use rb_outside::{Failed, Sink};
use rb_trace::{put_line, write_process};
use std::sync::ledger::Ledger;

/// Writes the position of a session, and how process p stands there, with its variables. It takes no memory, and one tick at most for each
/// word that it writes.
pub fn write_shown<S: Sink, L: Ledger>(
    session: &Session<'_, L>,
    names: &Names,
    p: u32,
    out: &mut S,
    steps: &mut Steps<L>,
) -> Result<(), Failed>
    requires process { p < length names.now.processes.items }
    requires named { naming names.now ≡ session.now.code.names }
    requires fit { NamesFit session.now.code names.now }
    ensures text { Puts (word_shown session.now.code session.now.groups session.now.ran session.now.position p) (S.written out.old)
        (S.written out.new) (S.faults out.old) (S.faults out.new) result }
    ensures work { steps.new ≤ steps.old + words_shown (slice_get (naming names.now).processes p) }
{
    write_position(out, session.position())?;
    let state = session.state(p);
    write_process(out, p, &names.processes[p as usize], state, session, steps)
}

fn write_position<S: Sink>(out: &mut S, position: u32) -> Result<(), Failed>
    ensures { Puts (position_line position) (S.written out.old) (S.written out.new) (S.faults out.old) (S.faults out.new) result }
{
    let mut buffer = Buffer::new();
    put_line(out, &[b"at", buffer.format(position).as_bytes()])
}
