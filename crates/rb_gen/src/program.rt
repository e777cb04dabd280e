//! The code of a program.

ghost use Rattle.std.specs.Prelude.{◌≡◌, length, IfOk};
ghost use Rattle.rb_syntax.specs.Plain.{tree};
ghost use Rattle.rb_syntax.specs.Numbered.{IsNumbered};
ghost use Rattle.rb_scope.specs.InFrames.{Resolved};
ghost use Rattle.rb_code.specs.Instructions.Plain.{code};
ghost use Rattle.rb_code.specs.Agreement.StandsFor.{StandsFor};

use crate::processes::emit_processes;
use rb_base::Memory;
use rb_code::{BlockCode, Code};
use rb_draft::Draft;
use rb_draft::channels::channel_codes;
use rb_resolve::names;
use rb_scope::Checked;
use std::alloc::Global;

/// The code that stands for a program whose names are resolved and whose recovery blocks are numbered. What a number of
/// 32 bits can't count is want of memory.
pub fn generate(alloc: Global, checked: &Checked<'_>) -> Result<Code, Memory>
    requires resolved { Resolved (tree checked.now.program) checked.now.slots.items }
    requires numbered { IsNumbered (tree checked.now.program) }
    ensures { IfOk result (λ made. StandsFor (tree checked.now.program) checked.now.slots.items (code made)) }
{
    let program = &checked.program;
    let names = names(alloc, checked)?;
    let channels = channel_codes(alloc, &checked.slots, &program.channels)?;
    let mut draft = Draft {
        instrs: Vec::new(alloc),
        texts: Vec::new(alloc),
        blocks: unsettled(alloc, program.blocks)?,
    };
    let processes = emit_processes(
        alloc,
        &mut draft,
        &checked.slots,
        &channels,
        &program.processes,
    )?;
    Ok(Code {
        edition: program.edition,
        instrs: draft.instrs,
        processes,
        blocks: draft.blocks,
        channels,
        texts: draft.texts,
        names,
    })
}

/// So many entries of recovery blocks, which are settled later.
fn unsettled(alloc: Global, count: u32) -> Result<Vec<BlockCode>, Memory>
    ensures { IfOk result (λ blocks. length blocks.items ≡ count) }
{
    let mut blocks = Vec::with_capacity(alloc, count as usize)?;
    'entries: for _number in 0..count {
        blocks.push(BlockCode {
            line: 0,
            conversation: None,
            bound: 0,
            restart: 0,
            test: 0,
            alternates: Vec::new(alloc),
        })?;
    }
    Ok(blocks)
}
