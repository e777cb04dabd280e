//! The entry of a recovery block, alone or as a member of a conversation.

ghost use Rattle.std.specs.Prelude.{◌≡◌, ◌+◌, ◌<◌, ◌≤◌, true, [], ◌∷◌, ◌++◌, length, slice_get, Some};
ghost use Rattle.rb_base.specs.declared.limits.TheConstants.{MOST_OPEN_LEVELS};
ghost use Rattle.rb_base.specs.declared.event.Cause.TheVariants.{Broken};
ghost use Rattle.rb_base.specs.declared.event.TurnKind.TheVariants.{Took};
ghost use Rattle.rb_world.specs.Kind.{Facts, Enters};
ghost use Rattle.rb_world.specs.Reject.{fallen};
ghost use Rattle.rb_world.specs.Turn.{enters};
ghost use Rattle.rb_world.specs.World.{change_at};
ghost use Rattle.rb_code.specs.Instructions.Plain.{Code as Plain, code as plain};
ghost use Rattle.rb_code.specs.SoundCode.Sound.{conversation_of};
ghost use Rattle.rb_code.specs.WordMachine.Turn.{want};
ghost use Rattle.rb_conv.specs.Conversations.{conversation_at, talks};
ghost use Rattle.rb_proc.specs.Entries.{WantsBlock, entered_process};
ghost use Rattle.rb_proc.specs.Executable.{IsExecutable, RestartsAt};
ghost use Rattle.rb_proc.specs.Process.{Seen, kind_of};
ghost use Rattle.rb_machine.specs.AtWork.{MayAct};
ghost use Rattle.rb_recovery.specs.Cascade.{SameGroups};
ghost use Rattle.rb_machine.specs.Entries.{IsListedBlock, entry_at, joined_at};
ghost use Rattle.rb_recovery.specs.Links.{HasRoom};
ghost use Rattle.rb_machine.specs.Moves.{AreAtWork, HasMoved, IsLeft, MovesAt};
ghost use Rattle.rb_recovery.specs.Rejections.{changed};
ghost use Rattle.rb_machine.specs.Telling.{IsQuiet};
ghost use Rattle.rb_recovery.specs.Work.{undoing};
ghost use Rattle.rb_recovery.specs.Worlds.{kind_with, processes_of};

use crate::came::Came;
use crate::undone::undo;
use arrayvec::ArrayVec;
use rb_base::{Cause, Event, MOST_EVENTS, MOST_OPEN_LEVELS, Steps, TurnKind};
use rb_code::Code;
use rb_conv::Table;
use rb_proc::{Proc, Wanted};
use rb_recovery::links::Links;
use rb_recovery::parts::Parts;
use std::sync::ledger::Ledger;

/// Process p enters a recovery block, at its first alternate, or at the present one of its conversation. It fails where that is broken
/// for good; and where the most levels are open already, the entry is a trap. An entry that is kept adds no tick.
#[inline(always)]
pub fn enter<L: Ledger>(
    code: &Code,
    parts: &mut Parts<L>,
    turn: u32,
    p: u32,
    block: u32,
    events: &mut ArrayVec<Event, MOST_EVENTS>,
    steps: &mut Steps<L>,
) -> Came
    requires work { AreAtWork (plain code.now) (turn + 1) parts.old }
    requires process { p < length parts.old.procs.items }
    requires acting { MayAct parts.old.procs.items p }
    requires wants { (one : Seen) → slice_get parts.old.procs.items p ≡ Some one → WantsBlock block (want (plain code.now) one.process.state) }
    requires room { HasRoom parts.old.links }
    requires none { length events.old.items ≡ 0 }
    ensures moved { (facts : Facts)
        → MovesAt parts.old p (λ q w. enters (kind_with (plain code.now) parts.old.table) turn p facts q w)
        (λ moved. ((one : Seen) → slice_get parts.old.procs.items p ≡ Some one → want (plain code.now) one.process.state ≡ Enters facts)
        → HasMoved parts.new events.new.items result moved) }
    ensures left { IsLeft (plain code.now) parts.old parts.new events.new.items result }
    ensures took { result.quiet ≡ true → result.kind ≡ Took }
    ensures quiet { result.quiet ≡ true → IsQuiet result parts.new.procs.items p }
    ensures room { parts.old.links.room ≤ parts.new.links.room + 1 }
    ensures held { parts.new.links.held ≡ parts.old.links.held }
    ensures work { steps.new
        ≤ steps.old + undoing result.kind (processes_of parts.old.procs.items) events.new.items (processes_of parts.new.procs.items) }
{
    let levels = parts.procs[p as usize].levels();
    if levels >= MOST_OPEN_LEVELS {
        return undo(parts, p, levels, Cause::Depth, events, steps);
    }
    match alternate_for(code, &mut parts.table, p, block) {
        None => {
            fail(&mut parts.procs, p);
            Came::without_pass(TurnKind::Undone)
        }
        Some(alternate) => {
            open(
                code,
                &mut parts.procs,
                &mut parts.links,
                turn,
                p,
                block,
                alternate,
            );
            Came::quietly(TurnKind::Took)
        }
    }
}

// The alternate at which process p enters a block: the first, or the present one of its conversation, inside which it is from then on.
// There is none where the conversation is broken for good.
#[inline(always)]
fn alternate_for(code: &Code, table: &mut Table, p: u32, block: u32) -> Option<u32>
    requires { IsListedBlock (plain code.now) table.old block }
    ensures alternate { result ≡ entry_at table.old (conversation_of (slice_get (plain code.now).blocks block)) }
    ensures talks { talks table.new ≡ talks table.old }
    ensures groups { SameGroups table.old table.new }
{
    match code.blocks[block as usize].conversation {
        None => Some(1),
        Some(conversation) => join(table, p, conversation),
    }
}

// Process p joins a conversation at its present alternate, unless it is broken for good.
fn join(table: &mut Table, p: u32, conversation: u32) -> Option<u32>
    requires { conversation < length table.old }
    ensures alternate { result ≡ joined_at (conversation_at table.old conversation).talk }
    ensures talks { talks table.new ≡ talks table.old }
    ensures groups { SameGroups table.old table.new }
{
    let alternate = table.alternate(conversation);
    if table.enter(conversation, p) {
        Some(alternate)
    } else {
        None
    }
}

// Process p opens a level of the block that stands next, which is known, at an alternate. The turn is kept before, so that it is the last
// kept one of the level's copy, and its link is added before that.
#[inline(always)]
fn open<L: Ledger>(
    code: &Code,
    procs: &mut [Proc<L>],
    links: &mut Links,
    turn: u32,
    p: u32,
    block: u32,
    alternate: u32,
)
    requires code { IsExecutable (plain code.now) }
    requires process { p < length procs.old }
    requires wants { (one : Seen) → slice_get procs.old p ≡ Some one → WantsBlock block (want (plain code.now) one.process.state) }
    requires acting { MayAct procs.old p }
    requires restart { (one : Seen) → slice_get procs.old p ≡ Some one → RestartsAt (plain code.now) (one.process.state.at + 2) }
    requires shallow { (one : Seen) → slice_get procs.old p ≡ Some one → length one.process.levels < MOST_OPEN_LEVELS }
    requires room { HasRoom links.old }
    ensures processes { (one : Seen) (facts : Facts) → slice_get procs.old p ≡ Some one
        → want (plain code.now) one.process.state ≡ Enters facts
        → procs.new ≡ change_at p (changed (entered_process (plain code.now) facts alternate turn)) procs.old }
    ensures links { (one : Seen) → slice_get procs.old p ≡ Some one
        → links.new.items ≡ links.old.items ++ record { turn = turn; process = p; alternate = 0; before = one.process.state.last_kept } ∷ [] }
    ensures room { links.old.room ≤ links.new.room + 1 }
    ensures held { links.new.held ≡ links.old.held }
{
    let proc = &mut procs[p as usize];
    links.note(proc, turn, p, Wanted::Entry(block));
    proc.enter(code, block, alternate, turn);
}

// Process p fails, since the conversation that it enters is broken for good.
#[cold]
#[inline(never)]
fn fail<L: Ledger>(procs: &mut [Proc<L>], p: u32)
    requires { p < length procs.old }
    ensures { (c : Plain) → procs.new ≡ change_at p (changed (fallen (kind_of c) Broken)) procs.old }
{
    procs[p as usize].fail(Cause::Broken);
}
