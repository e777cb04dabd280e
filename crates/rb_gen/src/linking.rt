//! Calls get the addresses of their procedures.

ghost use Rattle.std.specs.Prelude.{◌≡◌, map};
ghost use Rattle.rb_code.specs.Instructions.Plain.{procedure as plain_procedure};
ghost use Rattle.rb_draft.specs.Output.{linked_to, output, start_among};
ghost use Rattle.rb_gen.specs.Writes.{IsLinked};

use rb_code::{Instr, ProcedureCode};
use rb_draft::{Draft, patch};

/// The first address of a procedure, by its number.
fn start_of(procedures: &[ProcedureCode], number: u32) -> u32
    ensures { result ≡ start_among (map plain_procedure procedures.now) number }
{
    match procedures.get(number as usize) {
        Some(procedure) => procedure.start,
        None => 0,
    }
}

/// An instruction, where a call has the address of its procedure in place of its number.
fn linked(procedures: &[ProcedureCode], instr: Instr) -> Instr
    ensures { result ≡ linked_to (map plain_procedure procedures.now) instr }
{
    match instr {
        Instr::Call(number, arguments, words) => {
            Instr::Call(start_of(procedures, number), arguments, words)
        }
        other => other,
    }
}

/// Links all instructions of a process, which stand from an address on.
pub(crate) fn link(draft: &mut Draft, from: usize, procedures: &[ProcedureCode])
    ensures { IsLinked (map plain_procedure procedures.now) from (output draft.old) (output draft.new) }
{
    'instrs: for at in from..draft.instrs.len() {
        let instr = linked(procedures, draft.instrs[at]);
        patch(draft, at, instr);
    }
}
