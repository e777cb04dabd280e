//! Whether each loop that is begun stays open up to its end.

ghost use Rattle.std.specs.Prelude.{◌≡◌, ◌<◌, ◌≤◌, ◌+◌, true, false, length, slice_get, Option, option_map};
ghost use Rattle.rb_code.specs.Instructions.Plain.{code as plain};
ghost use Rattle.rb_code.specs.SoundCode.Sound.{HasTable, end_of_loop};
ghost use Rattle.rb_code.specs.SoundCode.WellFormed.{LoopsStayOpen};
ghost use Rattle.rb_conv.specs.Conversations.{memberships, opening};
ghost use Rattle.rb_flow.specs.Ends.{AreEnds};
ghost use Rattle.rb_search.specs.Found.{found, held_in};
ghost use Rattle.rb_entries.specs.Parts.{loop_of, loops_of};
ghost use Rattle.rb_search.specs.Watched.{IsLooked, IsWatching, StaysOpen, begun, is_kept as kept, is_open as opened, watched_on};
ghost use Rattle.rb_flow.specs.declared.ends.TheConstants.{MOST_INSTRUCTIONS};

use crate::cells::Cells;
use crate::join::is_same_loop;
use rb_base::Nested;
use rb_code::{Code, Instr};
use rb_entries::entry::{Held, Loop, Loops};
use rb_flow::ends::{Ends, end_of};
use rb_flow::lists::Lists;

/// Whether each loop of the table is open from its first address to its end.
pub fn loops_stay_open(
    code: &Code,
    nested: &Nested,
    ends: &Ends,
    lists: &Lists,
    cells: &Cells,
) -> bool
    requires ends { AreEnds (plain code.now) ends.now }
    requires few { length code.now.instrs.items ≤ MOST_INSTRUCTIONS }
    requires size { length cells.now ≡ length code.now.instrs.items }
    requires has { HasTable (plain code.now) (memberships (opening nested.now)) (found lists.now cells.now) }
    ensures stay { result ≡ true → LoopsStayOpen (plain code.now) (found lists.now cells.now) }
    ensures leave { result ≡ false → LoopsStayOpen (plain code.now) (found lists.now cells.now) → ⊥ }
{
    if !stay_open(code, nested, ends, lists, cells, 0) {
        return false;
    }
    stay_open(code, nested, ends, lists, cells, 1)
}

// The same of the loops over one counter.
fn stay_open(
    code: &Code,
    nested: &Nested,
    ends: &Ends,
    lists: &Lists,
    cells: &Cells,
    counter: u32,
) -> bool
    requires ends { AreEnds (plain code.now) ends.now }
    requires few { length code.now.instrs.items ≤ MOST_INSTRUCTIONS }
    requires size { length cells.now ≡ length code.now.instrs.items }
    requires has { HasTable (plain code.now) (memberships (opening nested.now)) (found lists.now cells.now) }
    requires counter { counter < 2 }
    ensures stay { result ≡ true → StaysOpen (plain code.now) (found lists.now cells.now) counter }
    ensures leave { result ≡ false → StaysOpen (plain code.now) (found lists.now cells.now) counter → ⊥ }
{
    let mut watched: Option<Loop> = None;
    for at in 0..cells.len() {
        match look(code, nested, ends, lists, cells, counter, at, watched) {
            Looked::Closed => return false,
            Looked::Watches(next) => watched = next,
        }
    }
    true
}

/// What the pass finds at an address: that the loop that it watches is not open there, or the loop that it watches behind it.
#[derive(Clone, Copy)]
enum Looked {
    Closed,
    Watches(Option<Loop>),
}

fn look(
    code: &Code,
    nested: &Nested,
    ends: &Ends,
    lists: &Lists,
    cells: &Cells,
    counter: u32,
    at: usize,
    watched: Option<Loop>,
) -> Looked
    requires ends { AreEnds (plain code.now) ends.now }
    requires has { HasTable (plain code.now) (memberships (opening nested.now)) (found lists.now cells.now) }
    requires counter { counter < 2 }
    requires at { at < MOST_INSTRUCTIONS }
    requires watching { IsWatching (plain code.now) (found lists.now cells.now) counter at (option_map loop_of watched) }
    ensures { IsLooked result (StaysOpen (plain code.now) (found lists.now cells.now) counter → ⊥)
        (λ next. IsWatching (plain code.now) (found lists.now cells.now) counter (at + 1) (option_map loop_of next)) }
{
    let held = match entry_at(cells, at) {
        None => return Looked::Watches(watched),
        Some(held) => held,
    };
    if !is_kept(watched, at as u32, held.loops) {
        return Looked::Closed;
    }
    Looked::Watches(watch(code, ends, counter, at as u32, watched))
}

/// The entry at an address.
#[inline(always)]
pub fn entry_at(cells: &Cells, at: usize) -> Option<Held>
    ensures { result ≡ held_in (slice_get cells.now at) }
{
    match cells.get(at) {
        None => None,
        Some(cell) => cell.entry,
    }
}

// The loop that is watched behind an address of the table.
fn watch(code: &Code, ends: &Ends, counter: u32, at: u32, watched: Option<Loop>) -> Option<Loop>
    requires ends { AreEnds (plain code.now) ends.now }
    requires counter { counter < 2 }
    requires at { at < MOST_INSTRUCTIONS }
    ensures { option_map loop_of result ≡ watched_on (plain code.now) counter at (option_map loop_of watched) }
{
    match code.instrs.get(at as usize) {
        None => watched,
        Some(instr) => match *instr {
            Instr::Range(k, _) => {
                if k == counter {
                    begin(code, ends, counter, at, watched)
                } else {
                    watched
                }
            }
            _ => watched,
        },
    }
}

// The loop that begins behind an address, if it has an end.
fn begin(code: &Code, ends: &Ends, counter: u32, at: u32, watched: Option<Loop>) -> Option<Loop>
    requires ends { AreEnds (plain code.now) ends.now }
    requires counter { counter < 2 }
    requires at { at < MOST_INSTRUCTIONS }
    ensures { option_map loop_of result
        ≡ begun counter at (end_of_loop (plain code.now) counter (at + 1)) (option_map loop_of watched) }
{
    match end_of(code, ends, counter, at + 1) {
        None => watched,
        Some(last) => Some(Loop {
            counter,
            first: at + 1,
            last,
        }),
    }
}

fn is_kept(watched: Option<Loop>, at: u32, loops: Loops) -> bool
    ensures { result ≡ kept (option_map loop_of watched) at (loops_of loops) }
{
    match watched {
        None => true,
        Some(one) => one.last < at || is_open(one, loops),
    }
}

fn is_open(one: Loop, loops: Loops) -> bool
    ensures { result ≡ opened (loop_of one) (loops_of loops) }
{
    match loops {
        Loops::Zero => false,
        Loops::One(x) => is_same_loop(x, one),
        Loops::Two(x, y) => is_same_loop(x, one) || is_same_loop(y, one),
    }
}
