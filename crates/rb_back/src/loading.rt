//! What a session shows before its first turn.

ghost use Rattle.std.specs.Prelude.{◌≡◌, ◌<◌, ◌^◌, length, map, IfOk};
ghost use Rattle.rb_base.specs.Lines.{belonging};
ghost use Rattle.rb_code.specs.declared.code.ProcessCode.{ProcessCode as ProcessOf};
ghost use Rattle.rb_back.specs.Picture.{picture};

use crate::view::View;
use rb_base::{Final, Memory, Steps};
use rb_cell::Cells;
use rb_code::Code;
use std::alloc::Global;

/// How each process of a machine stands, and the words of its variables; `Memory` if it is wanting.
pub(crate) fn load_view<M: Final>(
    alloc: Global,
    code: &Code,
    machine: &M,
    steps: &mut Steps<M::Ledger>,
) -> Result<View<M::Ledger>, Memory>
    requires states { length (M.states machine.now) ≡ length code.now.processes.items }
    requires words { map length (M.words machine.now) ≡ map (λ (one : ProcessOf). one.words) code.now.processes.items }
    requires numbered { length code.now.processes.items < 2 ^ 32 }
    ensures { IfOk result (λ view. picture view ≡ record { states = M.states machine.now; words = M.words machine.now }) }
{
    let mut states = Vec::with_capacity(alloc, code.processes.len())?;
    let mut words = Vec::with_capacity(alloc, code.processes.len())?;
    for p in 0..code.processes.len() {
        let size = code.processes[p].words;
        states.push(machine.state(p as u32))?;
        words.push(load_words(alloc, machine, p as u32, size, steps)?)?;
    }
    Ok(View { states, words })
}

// The words of a process, of which there are so many.
fn load_words<M: Final>(
    alloc: Global,
    machine: &M,
    process: u32,
    size: u32,
    steps: &mut Steps<M::Ledger>,
) -> Result<Cells<M::Ledger>, Memory>
    requires { size ≡ length (belonging (M.words machine.now) process) }
    ensures { IfOk result (λ words. words.words ≡ belonging (M.words machine.now) process) }
{
    let mut words = Cells::new(alloc, size)?;
    words.push_zeros(size, steps);
    for at in 0..size {
        let word = machine.word(process, at, steps);
        words.write(at, word, steps);
    }
    Ok(words)
}
