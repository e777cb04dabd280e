//! The numbers that instructions name.

ghost use Rattle.std.specs.Prelude.{◌≡◌, ◌↔◌, IsTrue};
ghost use Rattle.std.specs.List.{All};
ghost use Rattle.rb_code.specs.Instructions.Plain.{code as plain};
ghost use Rattle.rb_code.specs.SoundCode.WellFormed.{Names as NamesThere};

use crate::rule::{Allows, all_allowed};
use rb_code::{Code, Instr};

/// Whether the numbers of each instruction name what is there.
pub(crate) fn all_name_entries(code: &Code) -> bool
    ensures { IsTrue result ↔ All (NamesThere (plain code.now)) code.now.instrs.items }
{
    all_allowed(code, &code.instrs)
}

impl Allows<Instr> for Code {
    ghost Law = { λ code instr. NamesThere (plain code) instr };

    fn allows(&self, instr: &Instr) -> bool {
        let instrs = self.instrs.len();
        let channels = self.channels.len();
        match *instr {
            Instr::Jump(address) | Instr::JumpZero(address) | Instr::Call(address, _, _) => {
                (address as usize) < instrs
            }
            Instr::Text(text) => (text as usize) < self.texts.len(),
            Instr::Room(channel)
            | Instr::Put(channel)
            | Instr::There(channel)
            | Instr::Take(channel) => (channel as usize) < channels,
            Instr::Absent(channel, address) => {
                (channel as usize) < channels && (address as usize) < instrs
            }
            Instr::Enter(block) | Instr::Start(block) | Instr::Test(block) => {
                (block as usize) < self.blocks.len()
            }
            Instr::Range(counter, address) | Instr::Again(counter, address) => {
                counter < 2 && (address as usize) < instrs
            }
            Instr::Counter(counter) => counter < 2,
            _ => true,
        }
    }
}
