//! Places by address.

ghost use Rattle.std.specs.Prelude.{◌≡◌, IfOk};
ghost use Rattle.rb_syntax.specs.Plain.{tree};
ghost use Rattle.rb_code.specs.Agreement.Places.{is_turn, place_number, placed_from, places_told};

use rb_base::{Memory, Place};
use rb_changes::turn_places::places_of_turns;
use rb_code::{Code, Instr};
use rb_syntax::Program;
use std::alloc::Global;

/// For each instruction of the code of a program: where it is a `turn`, the place of the statement that begins there, if that has one. Only
/// want of memory is an error.
pub fn places_of(
    alloc: Global,
    program: &Program<'_>,
    code: &Code,
) -> Result<Vec<Option<Place>>, Memory>
    ensures { IfOk result (λ places. places.items ≡ places_told (tree program.now) code.now.instrs.items) }
{
    let turns = places_of_turns(alloc, program)?;
    at_turns(alloc, &turns, &code.instrs)
}

// The places of turns in their order, each at the address of its `turn`.
fn at_turns(
    alloc: Global,
    turns: &[Option<Place>],
    instrs: &[Instr],
) -> Result<Vec<Option<Place>>, Memory>
    ensures { IfOk result (λ places. places.items ≡ placed_from 0 turns.now instrs.now) }
{
    let mut places = Vec::with_capacity(alloc, instrs.len())?;
    let mut next = 0;
    for instr in instrs {
        if begins_turn(instr) {
            places.push_reserved(number(turns, next));
            next += 1;
        } else {
            places.push_reserved(None);
        }
    }
    Ok(places)
}

// Whether a turn begins at an instruction.
fn begins_turn(instr: &Instr) -> bool
    ensures { result ≡ is_turn instr.now }
{
    match instr {
        Instr::Turn => true,
        _ => false,
    }
}

// A place by its number, if there is one.
fn number(turns: &[Option<Place>], k: usize) -> Option<Place>
    ensures { result ≡ place_number turns.now k }
{
    match turns.get(k) {
        Some(place) => *place,
        None => None,
    }
}
