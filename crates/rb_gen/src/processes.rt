//! The code of processes and their procedures.

ghost use Rattle.std.specs.Prelude.{◌≡◌, map, IfOk};
ghost use Rattle.rb_syntax.specs.Plain.{procedure_declaration, process_declaration as declared};
ghost use Rattle.rb_code.specs.Instructions.Plain.{channel as plain_channel, part as plain_part, procedure as plain_procedure};
ghost use Rattle.rb_draft.specs.Output.{output};
ghost use Rattle.rb_gen.specs.InProcesses.{WritesProcedure};
ghost use Rattle.rb_gen.specs.Writes.{WritesProcedures, WritesProcess, WritesProcesses, room_of};

use crate::linking::link;
use crate::statements::emit_statements;
use rb_base::{Memory, Text};
use rb_code::{ChannelCode, Instr, ProcedureCode, ProcessCode};
use rb_draft::channels::channels_of;
use rb_draft::frames::words_of;
use rb_draft::{Draft, here, put};
use rb_scope::Slot;
use rb_syntax::{Procedure, Process};
use std::alloc::Global;

/// How many words the variables of each procedure's block have.
fn rooms(alloc: Global, procedures: &[Procedure<'_>]) -> Result<Vec<u32>, Memory>
    ensures { IfOk result (λ words. words.items ≡ map room_of (map procedure_declaration procedures.now)) }
{
    let mut words = Vec::with_capacity(alloc, procedures.len())?;
    let mut rest = procedures;
    'procedures: while let [procedure, after @ ..] = rest {
        words.push(words_of(&procedure.block.vars)?)?;
        rest = after;
    }
    Ok(words)
}

/// The code of procedures, and where each begins.
fn emit_procedures(
    alloc: Global,
    draft: &mut Draft,
    slots: &[Slot],
    words: &[u32],
    procedures: &[Procedure<'_>],
) -> Result<Vec<ProcedureCode>, Memory>
    ensures { IfOk result
        (λ entries. WritesProcedures slots.now words.now (map procedure_declaration procedures.now)
        (map plain_procedure entries.items) (output draft.old) (output draft.new)) }
{
    let mut entries = Vec::with_capacity(alloc, procedures.len())?;
    let mut rest = procedures;
    'procedures: while let [procedure, after @ ..] = rest {
        let entry = emit_procedure(alloc, draft, slots, words, procedure)?;
        entries.push(entry)?;
        rest = after;
    }
    Ok(entries)
}

/// The code of a procedure, and where it begins.
fn emit_procedure(
    alloc: Global,
    draft: &mut Draft,
    slots: &[Slot],
    words: &[u32],
    procedure: &Procedure<'_>,
) -> Result<ProcedureCode, Memory>
    ensures { IfOk result
        (λ entry. WritesProcedure slots.now words.now procedure.now (plain_procedure entry) (output draft.old) (output draft.new)) }
{
    let start = here(draft)?;
    emit_statements(alloc, draft, slots, words, &procedure.block.body)?;
    put(draft, Instr::Return)?;
    let name = Text::from_slice(alloc, procedure.name.text)?;
    Ok(ProcedureCode { name, start })
}

/// The code of a process with its procedures, and where each of these begins.
fn emit_process(
    alloc: Global,
    draft: &mut Draft,
    slots: &[Slot],
    process: &Process<'_>,
) -> Result<Vec<ProcedureCode>, Memory>
    ensures { IfOk result
        (λ entries. WritesProcess slots.now (declared process.now) (map plain_procedure entries.items) (output draft.old) (output draft.new)) }
{
    let words = rooms(alloc, &process.procedures)?;
    emit_linked(alloc, draft, slots, &words, process)
}

/// The same, where `words` has the words of each procedure of the process.
fn emit_linked(
    alloc: Global,
    draft: &mut Draft,
    slots: &[Slot],
    words: &[u32],
    process: &Process<'_>,
) -> Result<Vec<ProcedureCode>, Memory>
    ensures { IfOk result
        (λ entries. words.now ≡ map room_of (declared process.now).procedures
        → WritesProcess slots.now (declared process.now) (map plain_procedure entries.items) (output draft.old) (output draft.new)) }
{
    let from = draft.instrs.len();
    emit_statements(alloc, draft, slots, words, &process.body)?;
    put(draft, Instr::Done)?;
    let entries = emit_procedures(alloc, draft, slots, words, &process.procedures)?;
    link(draft, from, &entries);
    Ok(entries)
}

/// The code of processes, and what the list of processes tells of each.
pub(crate) fn emit_processes(
    alloc: Global,
    draft: &mut Draft,
    slots: &[Slot],
    channels: &[ChannelCode],
    processes: &[Process<'_>],
) -> Result<Vec<ProcessCode>, Memory>
    ensures { IfOk result
        (λ parts. WritesProcesses slots.now (map plain_channel channels.now) 0 (map declared processes.now)
        (map plain_part parts.items) (output draft.old) (output draft.new)) }
{
    let mut parts = Vec::with_capacity(alloc, processes.len())?;
    let mut number: u32 = 0;
    let mut rest = processes;
    'processes: while let [process, after @ ..] = rest {
        let start = here(draft)?;
        let words = words_of(&process.vars)?;
        let channels = channels_of(alloc, number, channels)?;
        let procedures = emit_process(alloc, draft, slots, process)?;
        parts.push(ProcessCode {
            start,
            words,
            channels,
            procedures,
        })?;
        number = number.checked_add(1).ok_or(Memory)?;
        rest = after;
    }
    Ok(parts)
}
