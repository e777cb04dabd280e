//! The words of variables, and their code.

ghost use Rattle.std.specs.Prelude.{◌≡◌, map, IfOk, OnOk};
ghost use Rattle.rb_syntax.specs.Plain.{declaration};
ghost use Rattle.rb_meaning.specs.Environment.{frame_of, frame_words, natural, size_of};
ghost use Rattle.rb_code.specs.Agreement.Forms.{DropCode, FrameCode};
ghost use Rattle.rb_draft.specs.Output.{output};
ghost use Rattle.rb_draft.specs.Emits.{Adds};

use crate::draft::{Draft, put};
use rb_base::Memory;
use rb_code::Instr;
use rb_syntax::{Number, Var};

/// A number of the source, as far as 32 bits can count.
pub fn natural(number: Number) -> Result<u32, Memory>
    ensures { IfOk result (λ n. n ≡ natural number.value) }
{
    if number.value < 0 {
        return Ok(0);
    }
    u32::try_from(number.value).map_err(|_| Memory)
}

/// How many words a variable of this size has.
fn size_of(size: Option<Number>) -> Result<u32, Memory>
    ensures { IfOk result (λ n. n ≡ size_of size) }
{
    match size {
        None => Ok(1),
        Some(number) => natural(number),
    }
}

/// How many words these variables have.
#[tactic(auto, using(crate::proofs::FrameWords::frame_more))]
pub fn words_of(variables: &[Var<'_>]) -> Result<u32, Memory>
    ensures { IfOk result (λ n. n ≡ frame_words (frame_of (map declaration variables.now))) }
{
    let mut total: u32 = 0;
    let mut rest = variables;
    'variables: while let [variable, after @ ..] = rest {
        total = total.checked_add(size_of(variable.size)?).ok_or(Memory)?;
        rest = after;
    }
    Ok(total)
}

/// Pushes so many words.
#[tactic(auto, using(crate::proofs::Emits::empty))]
pub fn put_frame(draft: &mut Draft, words: u32) -> Result<(), Memory>
    ensures { OnOk result (Adds (FrameCode words) (output draft.old) (output draft.new)) }
{
    if words == 0 {
        return Ok(());
    }
    put(draft, Instr::Frame(words))
}

/// Drops them.
#[tactic(auto, using(crate::proofs::Emits::empty))]
pub fn put_drop(draft: &mut Draft, words: u32) -> Result<(), Memory>
    ensures { OnOk result (Adds (DropCode words) (output draft.old) (output draft.new)) }
{
    if words == 0 {
        return Ok(());
    }
    put(draft, Instr::Drop(words))
}
