//! What a process asks of its next turn, and where in the text that stands.

ghost use Rattle.std.specs.Prelude.{◌≡◌, ◌<◌, cond, length, option_map, slice_get, Option, Some};
ghost use Rattle.rb_code.specs.Instructions.Plain.{Block, code as plain};
ghost use Rattle.rb_code.specs.WordMachine.Turn.{Copy, Standing};
ghost use Rattle.rb_code.specs.WordMachine.WordKind.{word_kind};
ghost use Rattle.rb_recovery.specs.Innermost.{IsInnermost};
ghost use Rattle.rb_picture.specs.Trace.{address_told, place_at, test_of};
ghost use Rattle.rb_picture.specs.Turns.{asked_of};
ghost use Rattle.rb_world.specs.World.{Level, Process, Running, last_of};
ghost use Rattle.rb_view.specs.Asking.{asked_by, is_line, start_seen};

use rb_base::Place;
use rb_code::Code;
use rb_machine::Machine;
use rb_picture::Asked;
use rb_proc::{LevelView, ProcessStatus, Wanted};
use std::sync::ledger::Ledger;

/// What process p asks of its next turn.
pub(crate) fn asked_of<L: Ledger>(machine: &Machine<'_, L>, p: u32) -> Asked
    requires { p < length machine.now.world.processes }
    ensures { (q : Process Standing Copy) → slice_get machine.now.world.processes p ≡ Some q
        → result ≡ asked_of (word_kind machine.now.code machine.now.groups) q }
{
    asked_by(machine.want(p), machine.line(p), innermost(machine, p))
}

// What is asked, by what is wanted, the conversation at whose test line the process stands, and its innermost level.
fn asked_by(wanted: Wanted, line: Option<u32>, level: Option<LevelView>) -> Asked
    ensures { result ≡ asked_by wanted line (start_seen level) }
{
    match wanted {
        Wanted::Idle => Asked::Nothing,
        Wanted::Line => Asked::Line(line),
        Wanted::Room(c) => Asked::Room(c),
        Wanted::Message(c) => Asked::Message(c),
        Wanted::Maybe(c) => Asked::Maybe(c),
        Wanted::Entry(block) => Asked::Entry(block),
        Wanted::Start => start_of(level),
        Wanted::Step => Asked::Step,
    }
}

// The start of the alternate that a level tries.
fn start_of(level: Option<LevelView>) -> Asked
    ensures { result ≡ start_seen level }
{
    match level {
        None => Asked::Start(0, 0),
        Some(view) => Asked::Start(view.block, view.alternate),
    }
}

// The innermost level of process p, if it has one open.
fn innermost<L: Ledger>(machine: &Machine<'_, L>, p: u32) -> Option<LevelView>
    requires { p < length machine.now.world.processes }
    ensures { (q : Process Standing Copy) → slice_get machine.now.world.processes p ≡ Some q → IsInnermost (last_of q.levels) result }
{
    let levels = machine.levels(p);
    if levels == 0 {
        return None;
    }
    Some(machine.level(p, levels - 1))
}

/// Whether process p, if it runs, stands at the test line of its innermost level.
pub(crate) fn is_at_line<L: Ledger>(machine: &Machine<'_, L>, p: u32) -> bool
    requires { p < length machine.now.world.processes }
    ensures { (q : Process Standing Copy) → slice_get machine.now.world.processes p ≡ Some q → q.status ≡ Running → result ≡ q.at_line }
{
    is_line(machine.want(p))
}

fn is_line(wanted: Wanted) -> bool
    ensures { result ≡ is_line wanted }
{
    match wanted {
        Wanted::Line => true,
        _ => false,
    }
}

/// Where in the text stands what is next in process p, by the places of addresses.
pub(crate) fn place_of<L: Ledger>(
    machine: &Machine<'_, L>,
    code: &Code,
    places: &[Option<Place>],
    p: u32,
) -> Option<Place>
    requires { p < length machine.now.world.processes }
    ensures { (q : Process Standing Copy) → slice_get machine.now.world.processes p ≡ Some q
        → result ≡ place_at places.now (address_told (plain code.now) q.status q) }
{
    place_at(places, address_of(machine, code, p))
}

// The place of an address, if it has one.
fn place_at(places: &[Option<Place>], address: Option<u32>) -> Option<Place>
    ensures { result ≡ place_at places.now address }
{
    match address {
        None => None,
        Some(address) => match places.get(address as usize) {
            None => None,
            Some(place) => *place,
        },
    }
}

// The address of what is next, if the process still runs.
fn address_of<L: Ledger>(machine: &Machine<'_, L>, code: &Code, p: u32) -> Option<u32>
    requires { p < length machine.now.world.processes }
    ensures { (q : Process Standing Copy) → slice_get machine.now.world.processes p ≡ Some q
        → result ≡ address_told (plain code.now) q.status q }
{
    match machine.status(p) {
        ProcessStatus::Running => address_running(machine, code, p),
        ProcessStatus::Finished => None,
        ProcessStatus::Failed(_) => None,
    }
}

// The same of a process that runs: at a test line, that of the acceptance test of its innermost level.
fn address_running<L: Ledger>(machine: &Machine<'_, L>, code: &Code, p: u32) -> Option<u32>
    requires { p < length machine.now.world.processes }
    ensures { (q : Process Standing Copy) → slice_get machine.now.world.processes p ≡ Some q → q.status ≡ Running
        → result ≡ cond q.at_line (test_of (plain code.now) (last_of q.levels)) (Some q.state.at) }
{
    if is_at_line(machine, p) {
        test_in(code, innermost(machine, p))
    } else {
        Some(machine.place(p))
    }
}

// The address of the acceptance test of a level.
fn test_in(code: &Code, level: Option<LevelView>) -> Option<u32>
    ensures { (o : Option (Level Copy)) → IsInnermost o level → result ≡ test_of (plain code.now) o }
{
    match level {
        None => None,
        Some(view) => test_at(code, view.block),
    }
}

// The address of the acceptance test of a recovery block.
fn test_at(code: &Code, block: u32) -> Option<u32>
    ensures { result ≡ option_map (λ (one : Block). one.test) (slice_get (plain code.now).blocks block) }
{
    match code.blocks.get(block as usize) {
        None => None,
        Some(one) => Some(one.test),
    }
}
