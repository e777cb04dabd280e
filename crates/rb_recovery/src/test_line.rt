//! The test line of a conversation, to which each member comes whose acceptance test held, and which all pass together; and a private
//! level that goes.

ghost use Rattle.std.specs.Prelude.{◌≡◌, ◌+◌, ◌*◌, ◌<◌, ◌≤◌, [], length, map, slice_get, sum_by, Some};
ghost use Rattle.rb_world.specs.Standing.{Each};
ghost use Rattle.rb_world.specs.Turn.{accepted, all_stand, at_test_line, stands_there};
ghost use Rattle.rb_world.specs.World.{change_at, last_of};
ghost use Rattle.rb_code.specs.Instructions.Plain.{Code as Plain, code as plain};
ghost use Rattle.rb_code.specs.WordMachine.Turn.{Common};
ghost use Rattle.rb_conv.specs.Conversations.{memberships};
ghost use Rattle.rb_proc.specs.Executable.{IsExecutable};
ghost use Rattle.rb_proc.specs.Process.{Seen};
ghost use Rattle.rb_recovery.specs.Cascade.{SameGroups};
ghost use Rattle.rb_recovery.specs.Channels.{conversation_in};
ghost use Rattle.rb_recovery.specs.TestLines.{HasTaken, HoldsTest, IsListed, MayLeave, level_gone, line_left, stood};
ghost use Rattle.rb_recovery.specs.Work.{named_accepted, named_at_line, named_by_member, named_leaving};
ghost use Rattle.rb_recovery.specs.Worlds.{NoneWaits, kind_with, processes_of, world_of};

use crate::innermost::innermost;
use rb_base::{Event, Steps};
use rb_code::Code;
use rb_conv::Table;
use rb_proc::Proc;
use std::sync::ledger::Ledger;

/// The acceptance test of process p's innermost level held. A private level goes. A member of a conversation stands at its test line,
/// and once all members stand there they leave; then their pass is told.
#[inline(always)]
pub fn accept<L: Ledger>(
    code: &Code,
    procs: &mut [Proc<L>],
    table: &mut Table,
    p: u32,
    steps: &mut Steps<L>,
) -> Option<Event>
    requires code { IsExecutable (plain code.now) }
    requires process { p < length procs.old }
    requires waits { NoneWaits procs.old }
    requires holds { (one : Seen) → slice_get procs.old p ≡ Some one → HoldsTest (plain code.now) one }
    requires listed { (one : Seen) → slice_get procs.old p ≡ Some one → IsListed (length table.old) (conversation_in (last_of one.process.levels)) }
    requires leave { Each (MayLeave (plain code.now)) procs.old }
    ensures taken { (one : Seen) (memory : Common) → slice_get procs.old p ≡ Some one
        → HasTaken memory procs.new table.new result
        (accepted (kind_with (plain code.now) table.old) p one.process.levels (last_of one.process.levels)
        (world_of procs.old table.old memory) (one.process.state, memory)) }
    ensures waits { NoneWaits procs.new }
    ensures groups { SameGroups table.old table.new }
    ensures work { (one : Seen) (memory : Common) → slice_get procs.old p ≡ Some one
        → steps.new ≤ steps.old
        + 3 * named_accepted (plain code.now) (memberships table.old) p one.process.levels (last_of one.process.levels)
        (world_of procs.old table.old memory) one.process.state }
{
    match conversation_of(&procs[p as usize]) {
        None => {
            leave_alone(code, procs, p, steps);
            None
        }
        Some(conversation) => {
            stand(procs, p);
            pass_line(code, procs, table, conversation, steps)
        }
    }
}

// The conversation of the innermost level, if there is one that has one.
#[inline(always)]
fn conversation_of<L: Ledger>(proc: &Proc<L>) -> Option<u32>
    ensures { result ≡ conversation_in (last_of proc.now.process.levels) }
{
    match innermost(proc) {
        None => None,
        Some(level) => level.conversation,
    }
}

// The innermost level of process p goes, and the process goes on without it.
#[inline(always)]
fn leave_alone<L: Ledger>(code: &Code, procs: &mut [Proc<L>], p: u32, steps: &mut Steps<L>)
    requires code { IsExecutable (plain code.now) }
    requires process { p < length procs.old }
    requires waits { NoneWaits procs.old }
    requires holds { (one : Seen) → slice_get procs.old p ≡ Some one → HoldsTest (plain code.now) one }
    ensures gone { procs.new ≡ change_at p (level_gone (plain code.now)) procs.old }
    ensures work { (one : Seen) → slice_get procs.old p ≡ Some one
        → steps.new ≤ steps.old + 3 * named_leaving (plain code.now) one.process.state one.process.levels }
{
    procs[p as usize].accept(code, steps);
}

// Process p stands at the test line of its innermost level.
fn stand<L: Ledger>(procs: &mut [Proc<L>], p: u32)
    requires { p < length procs.old }
    ensures { procs.new ≡ change_at p stood procs.old }
{
    procs[p as usize].stand();
}

// The test line of a conversation is passed if all members stand there; then the pass is told.
#[inline(always)]
fn pass_line<L: Ledger>(
    code: &Code,
    procs: &mut [Proc<L>],
    table: &mut Table,
    conversation: u32,
    steps: &mut Steps<L>,
) -> Option<Event>
    requires code { IsExecutable (plain code.now) }
    requires conversation { conversation < length table.old }
    requires waits { NoneWaits procs.old }
    requires leave { Each (MayLeave (plain code.now)) procs.old }
    ensures taken { (memory : Common)
        → HasTaken memory procs.new table.new result
        (at_test_line (kind_with (plain code.now) table.old) conversation (world_of procs.old table.old memory)) }
    ensures waits { NoneWaits procs.new }
    ensures groups { SameGroups table.old table.new }
    ensures work { (memory : Common)
        → steps.new
        ≤ steps.old + 3 * named_at_line (plain code.now) (memberships table.old) conversation (world_of procs.old table.old memory) }
{
    if !all_stand(procs, table, conversation) {
        return None;
    }
    let alternate = table.alternate(conversation);
    leave_all(code, procs, conversation, steps);
    table.pass(conversation);
    Some(Event::Pass {
        conversation,
        alternate,
    })
}

// Whether every declared member of a conversation stands at its test line. The last one is asked first, as who comes late mostly is.
#[inline(never)]
fn all_stand<L: Ledger>(procs: &[Proc<L>], table: &Table, conversation: u32) -> bool
    requires { conversation < length table.now }
    ensures { (code : Plain) (memory : Common) → result ≡ all_stand (kind_with code table.now) conversation (world_of procs.now table.now memory) }
{
    let mut left = table.members(conversation);
    while left > 0 {
        left -= 1;
        if !stands_there(procs, table.member(conversation, left), conversation) {
            return false;
        }
    }
    true
}

// Whether a process is there and stands at the test line of a conversation.
fn stands_there<L: Ledger>(procs: &[Proc<L>], process: u32, conversation: u32) -> bool
    ensures { result ≡ stands_there conversation (slice_get (processes_of procs.now) process) }
{
    let p = process as usize;
    p < procs.len() && procs[p].stands_at(conversation)
}

// Whoever stands at the test line of a conversation leaves, and goes on without its level.
#[inline(never)]
fn leave_all<L: Ledger>(code: &Code, procs: &mut [Proc<L>], conversation: u32, steps: &mut Steps<L>)
    requires code { IsExecutable (plain code.now) }
    requires waits { NoneWaits procs.old }
    requires leave { Each (MayLeave (plain code.now)) procs.old }
    ensures left { procs.new ≡ map (line_left (plain code.now) conversation) procs.old }
    ensures work { steps.new ≤ steps.old + 3 * sum_by (named_by_member (plain code.now) conversation) (processes_of procs.old) }
{
    for proc in procs.iter_mut() {
        leave(code, proc, conversation, steps);
    }
}

// The same of one process.
fn leave<L: Ledger>(code: &Code, proc: &mut Proc<L>, conversation: u32, steps: &mut Steps<L>)
    requires code { IsExecutable (plain code.now) }
    requires waits { proc.old.waiting ≡ [] }
    requires leave { MayLeave (plain code.now) 0 proc.old }
    ensures left { proc.new ≡ line_left (plain code.now) conversation proc.old }
    ensures work { steps.new ≤ steps.old + 3 * named_by_member (plain code.now) conversation proc.old.process }
{
    if proc.stands_at(conversation) {
        proc.accept(code, steps);
    }
}
