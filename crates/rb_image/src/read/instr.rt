//! Instructions.

ghost use Rattle.std.specs.Prelude.{◌≡◌, ℕ, List};
ghost use Rattle.std.proofs.Common.{lit≤};
ghost use Rattle.rb_code.specs.declared.instr.Instr.{Instr as PlainInstr};
ghost use Rattle.rb_image.specs.Reading.{Gives, both, natural_at};
ghost use Rattle.rb_image.specs.ReadInstrs.{instr_at, like_at, taken_by};

use crate::FormRefusal;
use crate::read::list::{Item, Listed};
use crate::read::number::{read_integer, read_natural, read_spot};
use crate::read::sample::{Operands, operands_of, put_one, put_two, put_word, sample_of};
use rb_code::Instr;
use std::alloc::Global;

impl Item for Instr {
    ghost Plain = { PlainInstr };

    ghost plain = { λ one. one };

    ghost reading = { instr_at };

    fn read(_alloc: Global, bytes: &[u8]) -> Result<(Instr, &[u8]), FormRefusal> {
        read_instr(bytes)
    }
}

impl Listed for Instr {
    const LEAST: usize = 1;

    ghost LEAST = { 1 };

    ghost some = { lit≤ tt };
}

/// The instruction at the front.
#[tactic(auto, unfolding(crate::specs::ReadInstrs::instr_at))]
pub(crate) fn read_instr(bytes: &[u8]) -> Result<(Instr, &[u8]), FormRefusal>
    ensures { Gives (λ x. (x.0, x.1.now)) result (instr_at bytes.now) }
{
    match bytes {
        [] => Err(FormRefusal::Form),
        [number, rest @ ..] => match sample_of(*number) {
            None => Err(FormRefusal::Form),
            Some(sample) => read_like(sample, rest),
        },
    }
}

// An instruction like the sample, with the operands at the front.
fn read_like(sample: Instr, bytes: &[u8]) -> Result<(Instr, &[u8]), FormRefusal>
    ensures { Gives (λ x. (x.0, x.1.now)) result (like_at (taken_by sample) sample bytes.now) }
{
    match operands_of(sample) {
        Operands::Nothing => Ok((sample, bytes)),
        Operands::Integer => {
            let (number, rest) = read_integer(bytes)?;
            Ok((Instr::Push(number), rest))
        }
        Operands::Word => {
            let (word, rest) = read_spot(bytes)?;
            Ok((put_word(sample, word), rest))
        }
        Operands::One => {
            let (number, rest) = read_natural(bytes)?;
            Ok((put_one(sample, number), rest))
        }
        Operands::Two => {
            let ((first, second), rest) = read_two(bytes)?;
            Ok((put_two(sample, first, second), rest))
        }
        Operands::Three => read_call(bytes),
    }
}

fn read_call(bytes: &[u8]) -> Result<(Instr, &[u8]), FormRefusal>
    ensures { Gives (λ x. (x.0, x.1.now)) result (like_at Operands.Three (Instr.Call 0 0 0) bytes.now) }
{
    let (address, rest) = read_natural(bytes)?;
    let ((arguments, words), rest) = read_two(rest)?;
    Ok((Instr::Call(address, arguments, words), rest))
}

fn read_two(bytes: &[u8]) -> Result<((u32, u32), &[u8]), FormRefusal>
    ensures { Gives (λ x. (x.0, x.1.now)) result (both natural_at natural_at bytes.now) }
{
    let (first, rest) = read_natural(bytes)?;
    let (second, rest) = read_natural(rest)?;
    Ok(((first, second), rest))
}
