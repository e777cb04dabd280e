//! The uses in the processes of a program.

ghost use Rattle.std.specs.Prelude.{◌≡◌, true, [], ◌∷◌, map, OnOk};
ghost use Rattle.rb_syntax.specs.Plain.{procedure_declaration, process_declaration, tree};
ghost use Rattle.rb_meaning.specs.Nesting.{outside, uses_in_procedures, uses_in_processes};
ghost use Rattle.rb_uses.specs.Memory.{Adds, AddsTo, spot_of};

use crate::spot::Spot;
use crate::usage::Use;
use crate::walk::{uses_in_block, uses_in_statements};
use rb_base::Memory;
use rb_nest::Blocks;
use rb_syntax::{Procedure, Process, Program};

/// Adds the uses in the processes of a program in order.
pub(crate) fn uses_in_processes<'a>(
    program: &Program<'a>,
    processes: &[Process<'a>],
    uses: &mut Vec<Use<'a>>,
) -> Result<(), Memory>
    ensures { OnOk result (AddsTo (tree program.now) uses.old.items uses.new.items (uses_in_processes 0 (map process_declaration processes.now))) }
{
    for (number, process) in processes.iter().enumerate() {
        uses_in_process(program, number, process, uses)?;
    }
    Ok(())
}

/// Adds the uses in a process: those in its procedures, and then its own.
#[tactic(auto, using(crate::proofs::InTurn::walks))]
fn uses_in_process<'a>(
    program: &Program<'a>,
    number: usize,
    process: &Process<'a>,
    uses: &mut Vec<Use<'a>>,
) -> Result<(), Memory>
    ensures { OnOk result
        (AddsTo (tree program.now) uses.old.items uses.new.items (uses_in_processes number (process_declaration process.now ∷ []))) }
{
    let around = Blocks::None;
    let in_procedures = Spot {
        program,
        process: number,
        in_procedure: true,
        around: &around,
    };
    uses_in_procedures(&process.procedures, &in_procedures, uses)?;
    let outside = Spot {
        program,
        process: number,
        in_procedure: false,
        around: &around,
    };
    uses_in_statements(&process.body, &outside, uses)
}

/// Adds the uses in procedures in order.
fn uses_in_procedures<'a>(
    procedures: &[Procedure<'a>],
    spot: &Spot<'_, 'a>,
    uses: &mut Vec<Use<'a>>,
) -> Result<(), Memory>
    requires { spot_of spot.now ≡ outside spot.now.process true }
    ensures { OnOk result
        (Adds spot.now uses.old.items uses.new.items (uses_in_procedures spot.now.process (map procedure_declaration procedures.now))) }
{
    for procedure in procedures {
        uses_in_block(&procedure.block, spot, uses)?;
    }
    Ok(())
}
