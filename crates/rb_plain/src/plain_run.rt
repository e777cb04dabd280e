//! The whole plain run of a record, from its turns to the bytes that it prints.

ghost use Rattle.std.specs.Prelude.{◌≡◌, ℕ, List, None, Ok};
ghost use Rattle.rb_syntax.specs.Plain.{tree};
ghost use Rattle.rb_trace.specs.Naming.{naming};
ghost use Rattle.rb_meaning.specs.Meaning.{naming_of};
ghost use Rattle.rb_meaning.specs.PlainRun.{plain_text};
ghost use Rattle.rb_plain.specs.Members.{HasMembers};
ghost use Rattle.rb_plain.specs.Played.{played, stuck_in, unkept_opening, Plays, Writes};

use crate::playing::{opening, play, rehearse};
use crate::values::write_values;
use rb_base::{Kept, Names, Nested};
use rb_levels::PlainAnswer;
use rb_outside::Sink;
use rb_record::Record;
use rb_syntax::Program;
use std::alloc::Global;

/// Runs the kept turns of a record alone, over the program's tree, with nothing ever rejected, and writes the lines that this prints and
/// then the values in which it ends. All turns are taken once before the first byte is written: a run that is stuck writes nothing.
pub fn plain<S: Sink>(
    alloc: Global,
    program: &Program<'_>,
    nested: &Nested,
    names: &Names,
    kept: &Record,
    out: &mut S,
) -> Result<(), PlainAnswer>
    requires named { naming names.now ≡ naming_of (tree program.now) }
    requires members { HasMembers (tree program.now) nested.now }
    ensures { Plays (plain_text (tree program.now) kept.now) (S.written out.old) (S.written out.new) (S.faults out.old) (S.faults out.new) result }
{
    let turns = kept.turns();
    rehearse(alloc, program, nested, turns)?;
    perform(alloc, program, nested, names, turns, out)
}

// Writes the whole text of a plain run of which each turn can be taken.
fn perform<S: Sink>(
    alloc: Global,
    program: &Program<'_>,
    nested: &Nested,
    names: &Names,
    turns: &[Kept],
    out: &mut S,
) -> Result<(), PlainAnswer>
    requires named { naming names.now ≡ naming_of (tree program.now) }
    requires members { HasMembers (tree program.now) nested.now }
    requires goes { stuck_in (played (tree program.now) turns.now (unkept_opening (tree program.now))) ≡ None }
    ensures { (text : List ℕ) × (plain_text (tree program.now) turns.now ≡ Ok text)
        × Writes text (S.written out.old) (S.written out.new) (S.faults out.old) (S.faults out.new) result }
{
    let mut opened = opening(alloc, program)?;
    let processes = opened.as_mut_slice();
    play(alloc, program, nested, names, turns, processes, out)?;
    write_values(alloc, program, names, processes, out)
}
