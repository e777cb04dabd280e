//! All faults of scopes and limits of a program.

ghost use Rattle.std.specs.Prelude.{◌≡◌, [], IfOk};
ghost use Rattle.rb_syntax.specs.Plain.{tree};
ghost use Rattle.rb_scope.specs.Rules.{faults_of};
ghost use Rattle.rb_faults.specs.InOrder.{in_order};

use crate::finder::Finder;
use crate::order::in_order;
use crate::program::visit_program;
use rb_base::{Memory, SourceFault};
use rb_syntax::Program;
use std::alloc::Global;

/// All faults of scopes and limits of a program, S1 to S11, in order. Words and entries that a number of 32 bits can't count are
/// want of memory.
pub fn faults_of_names(alloc: Global, program: &Program<'_>) -> Result<Vec<SourceFault>, Memory>
    ensures { IfOk result (λ faults. faults.items ≡ in_order (faults_of (tree program.now))) }
{
    let faults = look_through(alloc, program)?;
    in_order(alloc, &faults)
}

/// The same in the order of the sites.
fn look_through(alloc: Global, program: &Program<'_>) -> Result<Vec<SourceFault>, Memory>
    ensures { IfOk result (λ faults. faults.items ≡ faults_of (tree program.now)) }
{
    let mut finder = Finder::new(alloc);
    visit_program(alloc, program, &mut finder)?;
    Ok(finder.faults())
}
