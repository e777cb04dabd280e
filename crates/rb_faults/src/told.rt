//! The faults that are told of a source.

ghost use Rattle.std.specs.Prelude.{◌≡◌, ◌≤◌, [], length, IfOk};
ghost use Rattle.rb_syntax.specs.Plain.{tree};
ghost use Rattle.rb_scope.specs.Rules.{faults_of};
ghost use Rattle.rb_scope.specs.Slots.{HasOwnNumbers};
ghost use Rattle.rb_faults.specs.Told.{AreTold, AreToldOf, StandsAlone};

use crate::scoping::faults_of_names;
use rb_base::{MOST_BYTES, Memory, Refusal, SourceFault};
use rb_nesting::nest;
use rb_parse::parse;
use rb_resolve::resolve;
use rb_syntax::Program;
use std::alloc::Global;

/// The faults that are told of a source: that of its tokens or its grammar alone; or all of its names and limits, in order; or the
/// first of nesting; or none, where it is accepted.
pub fn faults_of_source(alloc: Global, source: &[u8]) -> Result<Vec<SourceFault>, Memory>
    requires { length source.now ≤ MOST_BYTES }
    ensures { IfOk result (λ told. AreTold source.now told.items) }
{
    match parse(alloc, source) {
        Ok(program) => faults_of_program(alloc, program),
        Err(refusal) => alone(alloc, refusal),
    }
}

fn faults_of_program(alloc: Global, program: Program<'_>) -> Result<Vec<SourceFault>, Memory>
    requires { HasOwnNumbers (tree program) }
    ensures { IfOk result (λ told. AreToldOf (tree program.entry) told.items) }
{
    let faults = faults_of_names(alloc, &program)?;
    if faults.is_empty() {
        return faults_of_nesting(alloc, program);
    }
    Ok(faults)
}

/// The first fault of nesting, if there is one.
fn faults_of_nesting(alloc: Global, program: Program<'_>) -> Result<Vec<SourceFault>, Memory>
    requires own { HasOwnNumbers (tree program) }
    requires well { faults_of (tree program) ≡ [] }
    ensures { IfOk result (λ told. AreToldOf (tree program.entry) told.items) }
{
    match resolve(alloc, program) {
        Ok(checked) => match nest(alloc, &checked) {
            Ok(_) => Ok(Vec::new(alloc)),
            Err(refusal) => alone(alloc, refusal),
        },
        Err(refusal) => alone(alloc, refusal),
    }
}

/// The fault of a refusal alone, unless memory was short.
fn alone(alloc: Global, refusal: Refusal) -> Result<Vec<SourceFault>, Memory>
    ensures { IfOk result (λ told. StandsAlone refusal told.items) }
{
    match refusal {
        Refusal::Fault(fault) => {
            let mut told = Vec::new(alloc);
            told.push(fault)?;
            Ok(told)
        }
        Refusal::Memory => Err(Memory),
    }
}
