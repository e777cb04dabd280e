//! What stands at an address, and where a comparison leads by what stands behind it.

ghost use Rattle.std.specs.Prelude.{◌≡◌, ◌<◌, ◌^◌, get_or, length, slice_get};
ghost use Rattle.rb_base.specs.declared.limits.TheConstants.{MOST_OPERANDS};
ghost use Rattle.rb_code.specs.WordMachine.Workspace.{Workspace};
ghost use Rattle.rb_code.specs.WordMachine.Act.{Going};
ghost use Rattle.rb_operands.specs.Comparing.{decided};

use crate::operands::Operands;
use rb_code::Instr;
use rb_value::operator::truth;

/// The instruction at an address.
#[inline(always)]
pub fn instr_at(instrs: &[Instr], at: usize) -> &Instr
    requires { at < length instrs.now }
    ensures { result.now ≡ get_or instrs.now at result.now }
{
    &instrs[at]
}

/// Where a comparison leads that holds or does not. A jump right behind it is decided at once, so that nothing is pushed for it.
#[inline(always)]
pub fn decide(instrs: &[Instr], next: usize, holds: bool, operands: &mut Operands<'_>) -> usize
    requires there { next < length instrs.now }
    requires addresses { length instrs.now < 2 ^ 32 }
    requires room { length operands.old < MOST_OPERANDS }
    ensures { (m : Workspace) → Going result operands.new m ≡ decided (slice_get instrs.now next) next holds operands.old m }
{
    match *instr_at(instrs, next) {
        Instr::JumpZero(_) if holds => next + 1,
        Instr::JumpZero(to) => to as usize,
        _ => {
            operands.push(truth(holds));
            next
        }
    }
}
