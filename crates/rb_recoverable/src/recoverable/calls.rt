//! The open calls of a process, whose words lie on top of the others.

ghost use Rattle.std.specs.Prelude.{◌≡◌, ◌+◌, ◌*◌, ◌<◌, ◌≤◌, pos, List, ◌∷◌, ◌++◌, length, take, replicate, IfSome};
ghost use Rattle.std.specs.Option.{unwrap_or};
ghost use Rattle.rb_base.specs.declared.limits.TheConstants.{MOST_OPEN_CALLS};
ghost use Rattle.rb_world.specs.World.{last_of, copy_of};
ghost use Rattle.rb_code.specs.Instructions.Plain.{Part};
ghost use Rattle.rb_code.specs.WordMachine.Workspace.{OpenCall as Opened, base_of, body_place};
ghost use Rattle.rb_code.specs.SoundCode.Safe.{HasCall, StayAbove};
ghost use Rattle.rb_code.specs.SoundCode.Stays.{entry_calls};
ghost use Rattle.rb_recoverable.specs.Places.{most_places};

use super::words::push_words;
use super::{OpenCall, Recoverable};
use rb_base::Steps;
use rb_hold::room::put;
use std::sync::ledger::Ledger;

impl<L: Ledger> Recoverable<L> {
    /// How many calls are open.
    pub fn open_calls(&self) -> usize
        ensures { result ≡ length self.now.calls }
    {
        self.calls.len()
    }

    /// Where the words of the running call begin, if one is open.
    pub fn call_base(&self) -> Option<u32>
        ensures base { (part : Part) → base_of part self.now.calls ≡ unwrap_or result (body_place part) }
        ensures some { IfSome result (λ base. 0 < base) }
    {
        let count = self.calls.len();
        if count == 0 {
            None
        } else {
            Some(self.calls[count - 1].base)
        }
    }

    /// Opens a call with these arguments and so many zeros as its words.
    pub fn open_call(&mut self, back: u32, arguments: &[i64], zeros: u32, steps: &mut Steps<L>)
        requires calls { length self.old.calls < MOST_OPEN_CALLS }
        requires words { length self.old.words + (length arguments.now + zeros) ≤ most_places }
        ensures call { self.new ≡ record self.old {
          words = self.old.words ++ (arguments.now ++ replicate zeros (pos 0));
          calls = record { back = back; base = length self.old.words } ∷ self.old.calls;
        } }
        ensures ticks { steps.new ≤ steps.old + (2 * length arguments.now + zeros) }
    {
        let base = self.cells.height();
        put(&mut self.calls, OpenCall { back, base });
        push_words(&mut self.cells, arguments, steps);
        self.cells.push_zeros(zeros, steps);
    }

    /// Goes back from the running call, whose words go.
    pub fn go_back(&mut self) -> u32
        requires call { HasCall self.old.calls (λ call. (call.base ≤ length self.old.words) × StayAbove self.old.touched call.base) }
        requires levels { entry_calls (copy_of (last_of self.old.levels)) < length self.old.calls }
        ensures { (call : Opened) × (calls : List Opened) × (self.old.calls ≡ call ∷ calls) × (result ≡ call.back)
            × (self.new ≡ record self.old { words = take call.base self.old.words; calls = calls }) }
    {
        let last = self.calls.pop().unwrap();
        self.cells.drop_to(last.base);
        last.back
    }
}
