//! Each recovery block has one entry, one start and one test, over all instructions.

ghost use Rattle.std.specs.Prelude.{◌≡◌, ◌↔◌, ◌<◌, ℕ, false, IfOk, IsTrue, length, replicate};
ghost use Rattle.std.specs.List.{count_by};
ghost use Rattle.rb_code.specs.Instructions.Plain.{code as plain};
ghost use Rattle.rb_code.specs.SoundCode.WellFormed.{HasOneEach};
ghost use Rattle.rb_lists.specs.Marks.{block_marked, is_marked};

use crate::rule::{Allows, all_allowed};
use rb_base::Memory;
use rb_code::{Code, Instr};
use std::alloc::Global;

/// What there is one of for each block.
#[derive(Clone, Copy)]
pub(crate) enum Mark {
    Entry,
    Begin,
    Judge,
}

/// Whether each block has one entry, one start and one test.
pub(crate) fn has_one_each(alloc: Global, code: &Code) -> Result<bool, Memory>
    ensures { IfOk result (λ told. IsTrue told ↔ HasOneEach (plain code.now)) }
{
    let blocks = code.blocks.len();
    if !each_once(alloc, Mark::Entry, blocks, &code.instrs)? {
        return Ok(false);
    }
    if !each_once(alloc, Mark::Begin, blocks, &code.instrs)? {
        return Ok(false);
    }
    each_once(alloc, Mark::Judge, blocks, &code.instrs)
}

fn each_once(alloc: Global, mark: Mark, blocks: usize, instrs: &[Instr]) -> Result<bool, Memory>
    ensures { IfOk result (λ told. IsTrue told ↔ ((b : ℕ) → b < blocks → count_by (is_marked mark b) instrs.now ≡ 1)) }
{
    let mut seen = vec![in alloc; false; blocks]?;
    Ok(see_each_once(mark, instrs, &mut seen))
}

fn see_each_once(mark: Mark, instrs: &[Instr], seen: &mut [bool]) -> bool
    requires { seen.old ≡ replicate (length seen.old) false }
    ensures { IsTrue result ↔ ((b : ℕ) → b < length seen.old → count_by (is_marked mark b) instrs.now ≡ 1) }
{
    for instr in instrs {
        if let Some(block) = block_marked(mark, *instr) {
            let block = block as usize;
            if block < seen.len() {
                if seen[block] {
                    return false;
                }
                seen[block] = true;
            }
        }
    }
    all_allowed(&Seen, seen)
}

// Marks that were seen.
#[derive(Clone, Copy)]
struct Seen;

impl Allows<bool> for Seen {
    ghost Law = { λ _ one. IsTrue one };

    fn allows(&self, one: &bool) -> bool {
        *one
    }
}

fn block_marked(mark: Mark, instr: Instr) -> Option<u32>
    ensures { result ≡ block_marked mark instr }
{
    match (mark, instr) {
        (Mark::Entry, Instr::Enter(block)) => Some(block),
        (Mark::Begin, Instr::Start(block)) => Some(block),
        (Mark::Judge, Instr::Test(block)) => Some(block),
        _ => None,
    }
}
