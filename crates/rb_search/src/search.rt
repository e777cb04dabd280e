//! The search for a table of code.

ghost use Rattle.std.specs.Prelude.{◌≡◌, ℕ, ◌+◌, ◌<◌, ◌≤◌, [], ◌∷◌, length, set, slice_get, Option, Some, None, option_map, true, false, IfOk, IfErr, IfSome};
ghost use Rattle.rb_code.specs.Instructions.Plain.{code as plain, Part};
ghost use Rattle.rb_conv.specs.Conversations.{memberships, opening};
ghost use Rattle.rb_code.specs.SoundCode.Sound.{alternates_at};
ghost use Rattle.rb_flow.specs.Flow.{begins, goes, goes_both, goes_to_each};
ghost use Rattle.rb_flow.specs.Held.{entry_of, IsHeld};
ghost use Rattle.rb_search.specs.Search.{Gains, HasGained, HasNoTable, IsBeginning, IsFollowing, IsFound, IsSearching};
ghost use Rattle.rb_search.specs.Weight.{left};
ghost use Rattle.rb_flow.specs.Ends.{AreEnds};
ghost use Rattle.rb_search.specs.Found.{found, held_in, pending, IfUnsound, IsWell, NoneTakes};
ghost use Rattle.rb_flow.specs.Ways.{steps_of, AreHeld};

use crate::arrive::arrive;
use crate::cells::Cells;
use crate::refusal::Refusal;
use crate::work::Work;
use rb_base::{Memory, Nested};
use rb_code::Code;
use rb_entries::cell::Cell;
use rb_entries::entry::{Held, Loops, Mode, Within};
use rb_flow::ends::Ends;
use rb_flow::flow::flow;
use rb_flow::lists::Lists;
use rb_flow::way::Way;
use std::alloc::Global;

/// What the search has found: a table of the code.
#[derive(Drop)]
pub struct Known {
    pub lists: Lists,
    pub cells: Cells,
}

/// Finds a table of code, or refuses code that has none.
pub fn find_table(
    alloc: Global,
    code: &Code,
    nested: &Nested,
    ends: &Ends,
) -> Result<Known, Refusal>
    requires ends { AreEnds (plain code.now) ends.now }
    ensures size { IfOk result (λ known. length known.cells ≡ length code.now.instrs.items) }
    ensures found { IfOk result (λ known. IsFound (plain code.now) (memberships (opening nested.now)) (found known.lists known.cells)) }
    ensures unsound { IfErr result (λ r. IfUnsound r (HasNoTable (plain code.now) (memberships (opening nested.now)))) }
{
    let mut lists = Lists::new(alloc);
    let mut cells = match Cells::new(alloc, code.instrs.len()) {
        Err(_) => return Err(Refusal::Memory),
        Ok(cells) => cells,
    };
    let mut work = Work::new(alloc);
    match begin(code, nested, &mut lists, &mut cells, &mut work) {
        Err(refused) => return Err(refused),
        Ok(()) => {}
    }
    match search(code, nested, ends, &mut lists, &mut cells, &mut work) {
        Err(refused) => Err(refused),
        Ok(()) => Ok(Known { lists, cells }),
    }
}

// The main body of each process begins.
fn begin(
    code: &Code,
    nested: &Nested,
    lists: &mut Lists,
    cells: &mut Cells,
    work: &mut Work,
) -> Result<(), Refusal>
    requires well { IsWell lists.old cells.old work.old }
    requires size { length cells.old ≡ length code.now.instrs.items }
    requires beginning { IsBeginning (plain code.now) (memberships (opening nested.now)) 0 (found lists.old cells.old) (pending cells.old) }
    ensures well { IfOk result (λ _. IsWell lists.new cells.new work.new) }
    ensures size { IfOk result (λ _. length cells.new ≡ length code.now.instrs.items) }
    ensures searching { IfOk result (λ _.
        IsSearching (plain code.now) (memberships (opening nested.now)) (found lists.new cells.new) (pending cells.new)) }
    ensures unsound { IfErr result (λ r. IfUnsound r (HasNoTable (plain code.now) (memberships (opening nested.now)))) }
{
    for p in 0..code.processes.len() {
        match begin_process(code, nested, lists, cells, work, p) {
            Err(refused) => return Err(refused),
            Ok(()) => {}
        }
    }
    Ok(())
}

// The main body of a process begins.
fn begin_process(
    code: &Code,
    nested: &Nested,
    lists: &mut Lists,
    cells: &mut Cells,
    work: &mut Work,
    p: usize,
) -> Result<(), Refusal>
    requires well { IsWell lists.old cells.old work.old }
    requires size { length cells.old ≡ length code.now.instrs.items }
    requires p { p < length code.now.processes.items }
    requires beginning { IsBeginning (plain code.now) (memberships (opening nested.now)) p (found lists.old cells.old) (pending cells.old) }
    ensures well { IfOk result (λ _. IsWell lists.new cells.new work.new) }
    ensures size { IfOk result (λ _. length cells.new ≡ length code.now.instrs.items) }
    ensures beginning { IfOk result (λ _.
        IsBeginning (plain code.now) (memberships (opening nested.now)) (p + 1) (found lists.new cells.new) (pending cells.new)) }
    ensures unsound { IfErr result (λ r. IfUnsound r (HasNoTable (plain code.now) (memberships (opening nested.now)))) }
{
    if p >= 4_294_967_296 {
        return Err(Refusal::Memory);
    }
    match start_of(code, p) {
        None => Err(Refusal::Memory),
        Some(start) => match arrive_begun(lists, cells, work, p as u32, start) {
            Err(refused) => Err(refused),
            Ok(()) => Ok(()),
        },
    }
}

// Where a process begins.
fn start_of(code: &Code, p: usize) -> Option<u32>
    ensures { result ≡ option_map (λ (one : Part). one.start) (slice_get (plain code.now).processes p) }
{
    match code.processes.get(p) {
        None => None,
        Some(one) => Some(one.start),
    }
}

// A main body's first entry arrives.
fn arrive_begun(
    lists: &mut Lists,
    cells: &mut Cells,
    work: &mut Work,
    process: u32,
    start: u32,
) -> Result<(), Refusal>
    requires well { IsWell lists.old cells.old work.old }
    ensures gains { IfOk result (λ _. Gains (record { at = start; entry = begins process None 0 } ∷ [])
        (found lists.old cells.old) (pending cells.old) (found lists.new cells.new) (pending cells.new)) }
    ensures well { IfOk result (λ _. IsWell lists.new cells.new work.new) }
    ensures size { IfOk result (λ _. length cells.new ≡ length cells.old) }
    ensures unsound { IfErr result (λ r. IfUnsound r
        (NoneTakes (length cells.old) (found lists.old cells.old) (goes start (begins process None 0)))) }
{
    let operands = lists.operands.empty();
    let blocks = lists.blocks.empty();
    let entry = Held {
        within: Within {
            process,
            procedure: None,
        },
        operands,
        words: 0,
        blocks,
        loops: Loops::Zero,
        pieces: 0,
        mode: Mode::Changed,
    };
    match arrive(lists, cells, work, start, entry) {
        Err(refused) => Err(refused),
        Ok(()) => Ok(()),
    }
}

/// Follows all addresses that are to be followed. It ends since with each one less is left to do.
pub fn search(
    code: &Code,
    nested: &Nested,
    ends: &Ends,
    lists: &mut Lists,
    cells: &mut Cells,
    work: &mut Work,
) -> Result<(), Refusal>
    requires ends { AreEnds (plain code.now) ends.now }
    requires well { IsWell lists.old cells.old work.old }
    requires size { length cells.old ≡ length code.now.instrs.items }
    requires searching { IsSearching (plain code.now) (memberships (opening nested.now)) (found lists.old cells.old) (pending cells.old) }
    ensures size { IfOk result (λ _. length cells.new ≡ length code.now.instrs.items) }
    ensures found { IfOk result (λ _. IsFound (plain code.now) (memberships (opening nested.now)) (found lists.new cells.new)) }
    ensures unsound { IfErr result (λ r. IfUnsound r (HasNoTable (plain code.now) (memberships (opening nested.now)))) }
{
    'rounds: loop {
        match follow(code, nested, ends, lists, cells, work) {
            Err(refused) => return Err(refused),
            Ok(more) => {
                if !more {
                    return Ok(());
                }
            }
        }
    }
}

// Follows one address, if one is to be followed.
fn follow(
    code: &Code,
    nested: &Nested,
    ends: &Ends,
    lists: &mut Lists,
    cells: &mut Cells,
    work: &mut Work,
) -> Result<bool, Refusal>
    requires ends { AreEnds (plain code.now) ends.now }
    requires well { IsWell lists.old cells.old work.old }
    requires size { length cells.old ≡ length code.now.instrs.items }
    requires searching { IsSearching (plain code.now) (memberships (opening nested.now)) (found lists.old cells.old) (pending cells.old) }
    ensures well { IfOk result (λ _. IsWell lists.new cells.new work.new) }
    ensures size { IfOk result (λ _. length cells.new ≡ length code.now.instrs.items) }
    ensures searching { IfOk result (λ _.
        IsSearching (plain code.now) (memberships (opening nested.now)) (found lists.new cells.new) (pending cells.new)) }
    ensures done { IfOk result (λ more. more ≡ false → (a : ℕ) → pending cells.new a ≡ false) }
    ensures left { IfOk result (λ more. more ≡ true → left lists.new cells.new work.new < left lists.old cells.old work.old) }
    ensures unsound { IfErr result (λ r. IfUnsound r (HasNoTable (plain code.now) (memberships (opening nested.now)))) }
{
    match work.pop() {
        None => Ok(false),
        Some(at) => match take(cells, at) {
            None => Err(Refusal::Memory),
            Some(held) => match follow_from(code, nested, ends, lists, cells, work, at, held) {
                Err(refused) => Err(refused),
                Ok(()) => Ok(true),
            },
        },
    }
}

// The entry at an address, which is no longer to be followed.
fn take(cells: &mut Cells, at: u32) -> Option<Held>
    ensures at { IfSome result (λ held. at < length cells.old) }
    ensures held { IfSome result (λ held. held_in (slice_get cells.old at) ≡ Some held) }
    ensures cells { IfSome result (λ held. cells.new ≡ set cells.old at (record { entry = Some held; pending = false })) }
{
    let held = match cells.get(at as usize) {
        None => return None,
        Some(cell) => match cell.entry {
            None => return None,
            Some(held) => held,
        },
    };
    let followed = Cell {
        entry: Some(held),
        pending: false,
    };
    match cells.set(at as usize, followed) {
        Err(_) => None,
        Ok(()) => Some(held),
    }
}

// Follows an address from its entry.
fn follow_from(
    code: &Code,
    nested: &Nested,
    ends: &Ends,
    lists: &mut Lists,
    cells: &mut Cells,
    work: &mut Work,
    at: u32,
    held: Held,
) -> Result<(), Refusal>
    requires ends { AreEnds (plain code.now) ends.now }
    requires well { IsWell lists.old cells.old work.old }
    requires size { length cells.old ≡ length code.now.instrs.items }
    requires is { held_in (slice_get cells.old at) ≡ Some held }
    requires following { IsFollowing (plain code.now) (memberships (opening nested.now)) (found lists.old cells.old) (pending cells.old) at }
    ensures well { IfOk result (λ _. IsWell lists.new cells.new work.new) }
    ensures size { IfOk result (λ _. length cells.new ≡ length code.now.instrs.items) }
    ensures searching { IfOk result (λ _.
        IsSearching (plain code.now) (memberships (opening nested.now)) (found lists.new cells.new) (pending cells.new)) }
    ensures left { IfOk result (λ _. left lists.new cells.new work.new ≤ left lists.old cells.old work.old) }
    ensures unsound { IfErr result (λ r. IfUnsound r (HasNoTable (plain code.now) (memberships (opening nested.now)))) }
{
    match flow(code, nested, ends, lists, at, held) {
        Err(_) => Err(Refusal::Memory),
        Ok(way) => match carry(code, lists, cells, work, way) {
            Err(refused) => Err(refused),
            Ok(()) => Ok(()),
        },
    }
}

// The steps that an instruction leads to arrive.
fn carry(
    code: &Code,
    lists: &mut Lists,
    cells: &mut Cells,
    work: &mut Work,
    way: Way,
) -> Result<(), Refusal>
    requires well { IsWell lists.old cells.old work.old }
    requires held { AreHeld lists.old way }
    ensures gains { IfOk result (λ _. HasGained (steps_of (plain code.now) lists.old way)
        (found lists.old cells.old) (pending cells.old) (found lists.new cells.new) (pending cells.new)) }
    ensures well { IfOk result (λ _. IsWell lists.new cells.new work.new) }
    ensures size { IfOk result (λ _. length cells.new ≡ length cells.old) }
    ensures left { IfOk result (λ _. left lists.new cells.new work.new ≤ left lists.old cells.old work.old) }
    ensures unsound { IfErr result (λ r. IfUnsound r (NoneTakes (length cells.old) (found lists.old cells.old)
        (steps_of (plain code.now) lists.old way))) }
{
    match way {
        Way::Broken => Err(Refusal::Unsound),
        Way::Ends => Ok(()),
        Way::One(b, x) => match arrive(lists, cells, work, b, x) {
            Err(refused) => Err(refused),
            Ok(()) => Ok(()),
        },
        Way::Two(b, x, d, y) => match arrive_both(lists, cells, work, b, x, d, y) {
            Err(refused) => Err(refused),
            Ok(()) => Ok(()),
        },
        Way::Each(x, b) => match arrive_each(lists, cells, work, x, alternates(code, b)) {
            Err(refused) => Err(refused),
            Ok(()) => Ok(()),
        },
    }
}

// Two steps arrive.
fn arrive_both(
    lists: &mut Lists,
    cells: &mut Cells,
    work: &mut Work,
    b: u32,
    x: Held,
    d: u32,
    y: Held,
) -> Result<(), Refusal>
    requires well { IsWell lists.old cells.old work.old }
    requires x { IsHeld lists.old x }
    requires y { IsHeld lists.old y }
    ensures gains { IfOk result (λ _. Gains (record { at = b; entry = entry_of lists.old x } ∷ record { at = d; entry = entry_of lists.old y } ∷ [])
        (found lists.old cells.old) (pending cells.old) (found lists.new cells.new) (pending cells.new)) }
    ensures well { IfOk result (λ _. IsWell lists.new cells.new work.new) }
    ensures size { IfOk result (λ _. length cells.new ≡ length cells.old) }
    ensures left { IfOk result (λ _. left lists.new cells.new work.new ≤ left lists.old cells.old work.old) }
    ensures unsound { IfErr result (λ r. IfUnsound r (NoneTakes (length cells.old) (found lists.old cells.old)
        (goes_both b (entry_of lists.old x) d (entry_of lists.old y)))) }
{
    match arrive(lists, cells, work, b, x) {
        Err(refused) => Err(refused),
        Ok(()) => match arrive(lists, cells, work, d, y) {
            Err(refused) => Err(refused),
            Ok(()) => Ok(()),
        },
    }
}

// A step to each of these addresses arrives.
fn arrive_each(
    lists: &mut Lists,
    cells: &mut Cells,
    work: &mut Work,
    x: Held,
    list: &[u32],
) -> Result<(), Refusal>
    requires well { IsWell lists.old cells.old work.old }
    requires x { IsHeld lists.old x }
    ensures gains { IfOk result (λ _. HasGained (goes_to_each (entry_of lists.old x) list.now)
        (found lists.old cells.old) (pending cells.old) (found lists.new cells.new) (pending cells.new)) }
    ensures well { IfOk result (λ _. IsWell lists.new cells.new work.new) }
    ensures size { IfOk result (λ _. length cells.new ≡ length cells.old) }
    ensures left { IfOk result (λ _. left lists.new cells.new work.new ≤ left lists.old cells.old work.old) }
    ensures unsound { IfErr result (λ r. IfUnsound r (NoneTakes (length cells.old) (found lists.old cells.old)
        (goes_to_each (entry_of lists.old x) list.now))) }
{
    for b in list {
        match arrive(lists, cells, work, *b, x) {
            Err(refused) => return Err(refused),
            Ok(()) => {}
        }
    }
    Ok(())
}

// The addresses of a block's alternates.
fn alternates(code: &Code, block: u32) -> &[u32]
    ensures { alternates_at (slice_get (plain code.now).blocks block) ≡ result.now }
{
    match code.blocks.get(block as usize) {
        None => &[],
        Some(one) => &one.alternates,
    }
}
