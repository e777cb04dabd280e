//! Rejections: levels are put back from the inside out, each alone or for all that are inside its conversation.

ghost use Rattle.std.specs.Prelude.{◌≡◌, ℕ, ◌+◌, ◌<◌, ◌≤◌, ◌++◌, ◌∷◌, ◌&&◌, [], not, nat_eq, nat_lt, map, length, slice_get, IsTrue};
ghost use Rattle.rb_world.specs.Reject.{fallen_inside, put_back, raised, reject, where_inside};
ghost use Rattle.rb_code.specs.Instructions.Plain.{Code as Plain};
ghost use Rattle.rb_code.specs.WordMachine.Turn.{Common};
ghost use Rattle.rb_conv.specs.Conversations.{conversation_at};
ghost use Rattle.rb_conv.specs.Reject.{has_next, rejected};
ghost use Rattle.rb_proc.specs.Process.{kind_of};
ghost use Rattle.rb_recovery.specs.Cascade.{AreQuiet, HasHappened, MayRejectAt, SameGroups};
ghost use Rattle.rb_recovery.specs.Rejections.{HasRejected, changed, rejection_of, tried_alone, tried_together};
ghost use Rattle.rb_recovery.specs.Work.{Undoes, inside, inside_one, touched_by, touched_in};
ghost use Rattle.rb_recovery.specs.Worlds.{CanRise, NoneWaits, kind_with, processes_of};

use arrayvec::ArrayVec;
use rb_base::{Cause, Event, MOST_EVENTS, Steps};
use rb_conv::Table;
use rb_proc::{LevelView, Proc};
use std::sync::ledger::Ledger;

/// Rejects process p from the innermost of its first `left` levels on: that level is put back, alone or with all that are inside its
/// conversation, and goes on to its next alternate; without one the next level out is rejected, and where none is left p fails.
#[cold]
#[inline(never)]
pub fn reject<L: Ledger>(
    procs: &mut [Proc<L>],
    table: &mut Table,
    p: u32,
    left: u32,
    cause: Cause,
    events: &mut ArrayVec<Event, MOST_EVENTS>,
    steps: &mut Steps<L>,
)
    requires process { p < length procs.old }
    requires may { MayRejectAt procs.old table.old p left }
    requires quiet { AreQuiet procs.old }
    requires room { length events.old.items + left ≤ MOST_EVENTS }
    ensures happened { (c : Plain) (memory : Common)
        → HasHappened
        (reject (kind_with c table.old) p left cause) memory procs.old table.old events.old.items procs.new table.new events.new.items }
    ensures waits { NoneWaits procs.new }
    ensures groups { SameGroups table.old table.new }
    ensures few { length events.new.items ≤ length events.old.items + left }
    ensures work { Undoes steps.old steps.new (processes_of procs.old) events.old.items (processes_of procs.new) events.new.items }
{
    if left == 0 {
        procs[p as usize].fail(cause);
        return;
    }
    let inner = left - 1;
    if reject_level(procs, table, p, inner, cause, events, steps) {
        reject(procs, table, p, inner, Cause::Inner, events, steps);
    }
}

// Rejects level number `inner` of process p. It answers true where no alternate is left and a level is around it, which is rejected next.
fn reject_level<L: Ledger>(
    procs: &mut [Proc<L>],
    table: &mut Table,
    p: u32,
    inner: u32,
    cause: Cause,
    events: &mut ArrayVec<Event, MOST_EVENTS>,
    steps: &mut Steps<L>,
) -> bool
    requires process { p < length procs.old }
    requires may { MayRejectAt procs.old table.old p (inner + 1) }
    requires quiet { AreQuiet procs.old }
    requires room { length events.old.items < MOST_EVENTS }
    ensures rejected { HasRejected p inner cause result procs.old table.old events.old.items procs.new table.new events.new.items }
    ensures may { IsTrue result → MayRejectAt procs.new table.new p inner }
    ensures quiet { IsTrue result → AreQuiet procs.new }
    ensures waits { NoneWaits procs.new }
    ensures groups { SameGroups table.old table.new }
    ensures work { Undoes steps.old steps.new (processes_of procs.old) events.old.items (processes_of procs.new) events.new.items }
    ensures fewer { (x : ℕ) → inside x (processes_of procs.new) ≤ inside x (processes_of procs.old) }
{
    let level = procs[p as usize].level(inner);
    events.push(rejection(p, level, cause));
    match level.conversation {
        None => reject_alone(&mut procs[p as usize], inner, level, steps),
        Some(conversation) => reject_together(procs, table, conversation, inner, steps),
    }
}

// What is told of a rejection: of the level's line, or of its conversation.
fn rejection(p: u32, level: LevelView, cause: Cause) -> Event
    ensures { result ≡ rejection_of p level cause }
{
    match level.conversation {
        None => Event::Reject {
            process: p,
            line: level.line,
            alternate: level.alternate,
            cause,
        },
        Some(conversation) => Event::RejectAll {
            conversation,
            alternate: level.alternate,
            by: p,
            cause,
        },
    }
}

// A level goes back, and on to its next alternate if one is left; whether none is.
fn reject_alone<L: Ledger>(
    proc: &mut Proc<L>,
    inner: u32,
    level: LevelView,
    steps: &mut Steps<L>,
) -> bool
    requires waits { proc.old.waiting ≡ [] }
    requires rise { CanRise proc.old }
    requires level { inner < length proc.old.process.levels }
    ensures process { (c : Plain) → proc.new ≡ changed (tried_alone (kind_of c) (nat_lt level.alternate level.alternates) inner) proc.old }
    ensures answer { result ≡ not (nat_lt level.alternate level.alternates) }
    ensures work { steps.new + touched_by proc.new.process ≤ steps.old + touched_by proc.old.process + 1 }
{
    proc.put_back(inner, steps);
    if level.alternate < level.alternates {
        proc.raise(inner);
        return false;
    }
    true
}

// All that are inside a conversation go back, and on to its next alternate if one is left. Without one they fail if no conversation lies
// around it, so that its level is the outermost; else the answer is true.
fn reject_together<L: Ledger>(
    procs: &mut [Proc<L>],
    table: &mut Table,
    conversation: u32,
    inner: u32,
    steps: &mut Steps<L>,
) -> bool
    requires conversation { conversation < length table.old }
    requires quiet { AreQuiet procs.old }
    ensures processes { (c : Plain)
        → procs.new ≡ map
        (changed (tried_together (kind_of c) (has_next (conversation_at table.old conversation)) (nat_eq inner 0) conversation)) procs.old }
    ensures table { table.new ≡ rejected conversation table.old }
    ensures answer { result ≡ (not (has_next (conversation_at table.old conversation)) && not (nat_eq inner 0)) }
    ensures work { steps.new + touched_in (processes_of procs.new)
        ≤ steps.old + touched_in (processes_of procs.old) + inside conversation (processes_of procs.old) }
{
    put_back_inside(procs, conversation, steps);
    if table.reject(conversation) {
        raise_inside(procs, conversation);
        return false;
    }
    if inner == 0 {
        fail_inside(procs, conversation);
        return false;
    }
    true
}

// Whoever is inside a conversation goes back to its level of it.
fn put_back_inside<L: Ledger>(procs: &mut [Proc<L>], conversation: u32, steps: &mut Steps<L>)
    requires waits { NoneWaits procs.old }
    ensures back { (c : Plain) → procs.new ≡ map (changed (where_inside (put_back (kind_of c)) conversation)) procs.old }
    ensures work { steps.new + touched_in (processes_of procs.new)
        ≤ steps.old + touched_in (processes_of procs.old) + inside conversation (processes_of procs.old) }
{
    for proc in procs.iter_mut() {
        put_back_at(proc, conversation, steps);
    }
}

fn put_back_at<L: Ledger>(proc: &mut Proc<L>, conversation: u32, steps: &mut Steps<L>)
    requires waits { proc.old.waiting ≡ [] }
    ensures back { (c : Plain) → proc.new ≡ changed (where_inside (put_back (kind_of c)) conversation) proc.old }
    ensures work { steps.new + touched_by proc.new.process ≤ steps.old + touched_by proc.old.process + inside_one conversation proc.old.process }
{
    if let Some(level) = proc.place_in(conversation) {
        proc.put_back(level, steps);
    }
}

// Whoever is inside a conversation goes on to the next alternate of its level of it.
fn raise_inside<L: Ledger>(procs: &mut [Proc<L>], conversation: u32)
    requires quiet { AreQuiet procs.old }
    ensures { procs.new ≡ map (changed (where_inside raised conversation)) procs.old }
{
    for proc in procs.iter_mut() {
        raise_at(proc, conversation);
    }
}

fn raise_at<L: Ledger>(proc: &mut Proc<L>, conversation: u32)
    requires rise { CanRise proc.old }
    ensures { proc.new ≡ changed (where_inside raised conversation) proc.old }
{
    if let Some(level) = proc.place_in(conversation) {
        proc.raise(level);
    }
}

// Whoever is inside a conversation fails.
fn fail_inside<L: Ledger>(procs: &mut [Proc<L>], conversation: u32)
    ensures { (c : Plain) → procs.new ≡ map (changed (fallen_inside (kind_of c) conversation)) procs.old }
{
    for proc in procs.iter_mut() {
        fail_at(proc, conversation);
    }
}

fn fail_at<L: Ledger>(proc: &mut Proc<L>, conversation: u32)
    ensures { (c : Plain) → proc.new ≡ changed (fallen_inside (kind_of c) conversation) proc.old }
{
    if proc.place_in(conversation).is_some() {
        proc.fail(Cause::Inner);
    }
}
