//! A script that is followed over a session.

ghost use Rattle.std.specs.Prelude.{◌≡◌, ℕ, ◌^◌, ◌<◌, ◌≤◌, length, vec_len, OnOk};
ghost use Rattle.rb_run.specs.Running.{NamesFit};
ghost use Rattle.rb_run.specs.Sources.{OfItsSource};
ghost use Rattle.rb_trace.specs.Naming.{naming};
ghost use Rattle.rb_back.specs.Course.{MayStep, opening_course, stepped};
ghost use Rattle.rb_script.specs.Script.{CanFollow};
ghost use Rattle.rb_script.specs.Shown.{session_text, tree_session_text, word_shown};
ghost use Rattle.rb_back.specs.Showing.{GoesOver, HasMoved, Shows, ShowsOne};

use crate::session::Session;
use crate::shown::write_shown;
use rb_base::{Memory, Names, Steps};
use rb_outside::{Failed, Sink};
use rb_sched::Schedule;
use rb_script::{Order, Script};
use std::sync::ledger::Ledger;

/// Why a script was not followed to its end.
#[derive(Clone, Copy)]
pub enum Stopped {
    /// A write failed.
    WriteFault,
    /// Memory was wanting for what a turn changed.
    Memory,
}

impl From<Memory> for Stopped {
    ghost use Rattle.rb_back.specs.declared.showing.Stopped.TheVariants as stopped;

    ghost from_gives = { λ _ why. why ≡ stopped.Memory };

    fn from(_error: Memory) -> Self {
        Stopped::Memory
    }
}

impl From<Failed> for Stopped {
    ghost use Rattle.rb_back.specs.declared.showing.Stopped.TheVariants as stopped;

    ghost from_gives = { λ _ why. why ≡ stopped.WriteFault };

    fn from(_error: Failed) -> Self {
        Stopped::WriteFault
    }
}

/// Follows a script that was just read over a session that was just loaded, and writes what each `show` line asks for, at the position that
/// the lines before it lead to. The turns are those of a schedule that was just read. Of code that stands for an accepted source the text
/// is that of the meaning. Between two `show` lines the session goes the nearest way, and it takes no turn that no `show` line asks for.
pub fn show_all<S: Sink, L: Ledger>(
    session: &mut Session<'_, L>,
    names: &Names,
    mut script: Script<'_>,
    mut schedule: Schedule<'_>,
    out: &mut S,
    steps: &mut Steps<L>,
) -> Result<(), Stopped>
    requires fresh { session.old ≡ opening_course session.old.code session.old.groups session.old.turns }
    requires named { naming names.now ≡ session.old.code.names }
    requires fit { NamesFit session.old.code names.now }
    requires whole { schedule.left ≡ schedule.all }
    requires turns { length schedule.left ≤ session.old.turns }
    requires few { length schedule.left < 2 ^ 32 }
    requires can_follow { CanFollow (vec_len names.now.processes) (length schedule.left) 0 script }
    ensures text { Shows (session_text session.old.code session.old.groups schedule.entry.all script.entry) (S.written out.old)
        (S.written out.new) (S.faults out.old) (S.faults out.new) result }
    ensures meant { OfItsSource session.old.code session.old.groups (λ tree.
        Shows (tree_session_text tree schedule.entry.all script.entry) (S.written out.old) (S.written out.new) (S.faults out.old)
        (S.faults out.new) result) }
{
    let mut position = 0;
    'orders: while let Some(order) = script.next() {
        match order {
            Order::Forth(n) => position += n,
            Order::Back(n) => position -= n,
            Order::Show(p) => show(session, names, position, p, &mut schedule, out, steps)?,
        }
    }
    Ok(())
}

// Goes to a position, and writes how process p stands there.
fn show<S: Sink, L: Ledger>(
    session: &mut Session<'_, L>,
    names: &Names,
    position: u32,
    p: u32,
    schedule: &mut Schedule<'_>,
    out: &mut S,
    steps: &mut Steps<L>,
) -> Result<(), Stopped>
    requires goes { GoesOver session.old schedule.old }
    requires within { position ≤ length schedule.old.all }
    requires process { p < length names.now.processes.items }
    requires named { naming names.now ≡ session.old.code.names }
    requires fit { NamesFit session.old.code names.now }
    ensures moved { OnOk result (HasMoved session.old schedule.old position session.new schedule.new) }
    ensures text { ShowsOne (word_shown session.old.code session.old.groups schedule.old.all position p) (S.written out.old)
        (S.written out.new) (S.faults out.old) (S.faults out.new) result }
{
    move_to(session, position, schedule, steps)?;
    write_shown(session, names, p, out, steps)?;
    Ok(())
}

// Goes forth or back to a position.
fn move_to<L: Ledger>(
    session: &mut Session<'_, L>,
    position: u32,
    schedule: &mut Schedule<'_>,
    steps: &mut Steps<L>,
) -> Result<(), Memory>
    requires goes { GoesOver session.old schedule.old }
    requires within { position ≤ length schedule.old.all }
    ensures { OnOk result (HasMoved session.old schedule.old position session.new schedule.new) }
{
    if position < session.position() {
        go_back(session, position, steps);
        Ok(())
    } else {
        go_forth(session, position, schedule, steps)
    }
}

// Goes back to a position.
fn go_back<L: Ledger>(session: &mut Session<'_, L>, position: u32, steps: &mut Steps<L>)
    requires { position ≤ session.old.position }
    ensures { session.new ≡ record session.old { position = position } }
{
    'back: while position < session.position() {
        session.back(steps);
    }
}

// Goes forth to a position.
fn go_forth<L: Ledger>(
    session: &mut Session<'_, L>,
    position: u32,
    schedule: &mut Schedule<'_>,
    steps: &mut Steps<L>,
) -> Result<(), Memory>
    requires goes { GoesOver session.old schedule.old }
    requires forth { session.old.position ≤ position }
    requires within { position ≤ length schedule.old.all }
    ensures { OnOk result (HasMoved session.old schedule.old position session.new schedule.new) }
{
    'forth: while session.position() < position {
        let p = next_process(session, schedule);
        session.step(p, steps)?;
    }
    Ok(())
}

// The process of the next turn forth: that of a turn that was taken before, and behind the last one the schedule's next.
fn next_process<L: Ledger>(session: &Session<'_, L>, schedule: &mut Schedule<'_>) -> u32
    requires goes { GoesOver session.now schedule.old }
    requires more { session.now.position < length schedule.old.all }
    requires taken { session.now.position ≤ length session.now.ran }
    ensures may { MayStep session.now result }
    ensures goes { GoesOver (stepped session.now result) schedule.new }
    ensures all { schedule.new.all ≡ schedule.old.all }
{
    if let Some(p) = session.next_process() {
        return p;
    }
    match schedule.next() {
        Some(p) => p,
        None => unreachable!(),
    }
}
