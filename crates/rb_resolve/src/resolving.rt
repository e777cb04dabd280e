//! A program with what each of its names stands for, or why it is refused.

ghost use Rattle.std.specs.Prelude.{◌≡◌, IfOk, IfErr};
ghost use Rattle.rb_syntax.specs.Plain.{tree};
ghost use Rattle.rb_scope.specs.Slots.{HasOwnNumbers};
ghost use Rattle.rb_scope.specs.Resolved.{IsResolved, IsRefused};
ghost use Rattle.rb_scope.specs.InFrames.{Resolved};
ghost use Rattle.rb_scope.specs.Finding.{nothing_found, visited};
ghost use Rattle.rb_scope.specs.Sites.{tree_sites};

use crate::program::visit_program;
use rb_base::{Memory, Refusal};
use rb_scope::{Checked, Finder};
use rb_syntax::Program;
use std::alloc::Global;

/// Finds what each name of a program stands for, or the first fault of scopes and limits, S1 to S11. After a refusal the
/// program is gone. Words and entries that a number of 32 bits can't count are want of memory.
pub fn resolve<'a>(alloc: Global, program: Program<'a>) -> Result<Checked<'a>, Refusal>
    requires { HasOwnNumbers (tree program) }
    ensures same { IfOk result (λ checked. tree checked.program ≡ tree program.entry) }
    ensures resolved { IfOk result (λ checked. IsResolved (tree program.entry) checked.slots.items) }
    ensures frames { IfOk result (λ checked. Resolved (tree program.entry) checked.slots.items) }
    ensures refused { IfErr result (IsRefused (tree program.entry)) }
{
    let finder = match look_through(alloc, &program) {
        Ok(finder) => finder,
        Err(Memory) => return Err(Refusal::Memory),
    };
    match finder.slots() {
        Ok(slots) => Ok(Checked { program, slots }),
        Err(fault) => Err(Refusal::Fault(fault)),
    }
}

/// What is found behind all sites of a program.
fn look_through(alloc: Global, program: &Program<'_>) -> Result<Finder, Memory>
    ensures { IfOk result (λ finder. finder ≡ visited (nothing_found program.now.names) (tree_sites (tree program.now))) }
{
    let mut finder = Finder::new(alloc, program.names)?;
    visit_program(alloc, program, &mut finder)?;
    Ok(finder)
}
