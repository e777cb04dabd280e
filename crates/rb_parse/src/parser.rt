//! From the bytes of a source to its tree, or to the first fault.
ghost use Rattle.std.specs.Prelude.{◌≡◌, ◌≤◌, length, IfOk, IfErr};
ghost use Rattle.rb_grammar.specs.Reading.{IsPlaceOf};
ghost use Rattle.rb_grammar.specs.Verdict.{HasTree, IsRefusal};
ghost use Rattle.rb_syntax.specs.Plain.{tree};

use crate::program::read_program;
use rb_base::{FaultName, MOST_BYTES, Refusal, SourceFault};
use rb_grammar::{Cursor, Stop};
use rb_syntax::Program;
use std::alloc::Global;

/// The tree of a source, or the first fault that is met as its tokens are read in order. After a refusal nothing is kept.
pub fn parse<'a>(alloc: Global, source: &'a [u8]) -> Result<Program<'a>, Refusal>
    requires { length source.now ≤ MOST_BYTES }
    ensures ok { IfOk result (λ program. HasTree source.now (tree program)) }
    ensures err { IfErr result (IsRefusal source.now) }
{
    let mut cursor = match Cursor::new(source) {
        Ok(cursor) => cursor,
        Err(fault) => return Err(Refusal::Fault(fault)),
    };
    match read_program(alloc, &mut cursor) {
        Ok(program) => {
            if cursor.is_at_end() {
                Ok(program)
            } else {
                Err(Refusal::Fault(stray(&cursor)))
            }
        }
        Err(Stop::Form) => Err(Refusal::Fault(stray(&cursor))),
        Err(Stop::Token(fault)) => Err(Refusal::Fault(fault)),
        Err(Stop::Memory) => Err(Refusal::Memory),
    }
}

// What stands first is stray, or the text ends early.
fn stray(cursor: &Cursor<'_>) -> SourceFault
    ensures placed { IsPlaceOf cursor.now.point.left cursor.now.ending result.place }
    ensures named { result.name ≡ FaultName.Y1 }
{
    let name = FaultName::Y1;
    let place = cursor.here();
    SourceFault { name, place }
}
