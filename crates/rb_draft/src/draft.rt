//! The code so far, and the steps by which it grows.

ghost use Rattle.std.specs.Prelude.{◌≡◌, ◌<◌, ℕ, false, length, IfOk, OnOk};
ghost use Rattle.rb_code.specs.Instructions.Plain.{block as plain_block};
ghost use Rattle.rb_code.specs.Agreement.Template.{Quoted};
ghost use Rattle.rb_draft.specs.Output.{added, filled_with, is_text, linked, output, patched, settled};
ghost use Rattle.rb_draft.specs.Emits.{Adds, Emits, Placed};

use rb_base::{Memory, Text};
use rb_code::{BlockCode, Instr};
use std::alloc::Global;

/// The code so far. A call that is not linked yet has the number of its procedure in place of an address.
#[derive(Drop)]
pub struct Draft {
    pub instrs: Vec<Instr>,
    pub texts: Vec<Text>,
    pub blocks: Vec<BlockCode>,
}

/// A number of 32 bits, as far as these can count.
pub fn narrow(number: usize) -> Result<u32, Memory>
    ensures { IfOk result (λ narrowed. narrowed ≡ number) }
{
    u32::try_from(number).map_err(|_| Memory)
}

/// The next address.
pub fn here(draft: &Draft) -> Result<u32, Memory>
    ensures { IfOk result (λ address. address ≡ length draft.now.instrs.items) }
{
    narrow(draft.instrs.len())
}

/// Adds an instruction that names no text.
pub fn put(draft: &mut Draft, instr: Instr) -> Result<(), Memory>
    ensures { OnOk result (is_text instr ≡ false → (p n : ℕ) → Emits (linked p) n n (Placed p instr) (output draft.old) (output draft.new)) }
{
    draft.instrs.push(instr)?;
    Ok(())
}

/// Adds a text, and the instruction that names it.
pub fn put_text(alloc: Global, draft: &mut Draft, text: &[u8]) -> Result<(), Memory>
    ensures { OnOk result (Adds (Quoted text.now) (output draft.old) (output draft.new)) }
{
    let number = narrow(draft.texts.len())?;
    let copy = Text::from_slice(alloc, text)?;
    draft.texts.push(copy)?;
    draft.instrs.push(Instr::Text(number))?;
    Ok(())
}

/// Leaves a place for an instruction that is written later, and tells where it is.
pub fn leave(draft: &mut Draft) -> Result<usize, Memory>
    ensures { IfOk result (λ place. (place ≡ length draft.old.instrs.items) × (output draft.new ≡ added (Instr.Jump 0) (output draft.old))) }
{
    let place = draft.instrs.len();
    draft.instrs.push(Instr::Jump(0))?;
    Ok(place)
}

/// Writes an instruction in a place that was left.
pub fn patch(draft: &mut Draft, place: usize, instr: Instr)
    ensures { output draft.new ≡ patched (output draft.old) place instr }
{
    if place < draft.instrs.len() {
        draft.instrs[place] = instr;
    }
}

/// Writes an instruction in several such places.
pub fn fill(draft: &mut Draft, places: &[usize], instr: Instr)
    ensures { output draft.new ≡ filled_with places.now instr (output draft.old) }
{
    'places: for place in places {
        patch(draft, *place, instr);
    }
}

/// Writes the entry of a recovery block.
pub fn settle(draft: &mut Draft, number: u32, entry: BlockCode)
    ensures { output draft.new ≡ settled (output draft.old) number (plain_block entry) }
{
    let at = number as usize;
    if at < draft.blocks.len() {
        draft.blocks[at] = entry;
    }
}
