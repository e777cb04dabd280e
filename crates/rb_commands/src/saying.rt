//! A command that reads no file and writes a text, as the line that shows the commands.
ghost use Rattle.std.specs.Prelude.{◌≡◌, ◌≤◌, List, [], ◌∷◌, length, ℕ};
ghost use Rattle.rb_hall.specs.Ends.{HoldsOn, IfRefused, WriteEnds};
ghost use Rattle.rb_verdict.specs.Judging.{Tells};
ghost use Rattle.rb_commands.specs.Explained.{ExplainsSource};
ghost use Rattle.rb_commands.specs.Held.{HoldsNoText};

use crate::trial::NoText;
use crate::why::Why;
use rb_hall::{Command, Stop, Unwritten, Wanted, Written};
use rb_outside::{Memory, Sink, put_all};
use std::alloc::Global;

/// A text that is written, and no file is read for it.
#[derive(Clone, Copy)]
pub struct Saying<'a> {
    pub text: &'a [u8],
}

impl<'s> Command<'s> for Saying<'_> {
    type Held = NoText;

    type Why = Why;

    ghost wanted = { λ _. [] };

    ghost judges = { λ c. Tells c.text.now };

    ghost explains = { λ _. ExplainsSource };

    ghost holds = { λ _. HoldsNoText };

    ghost takes = { λ _. ⊥ };

    fn file(&self, _number: usize) -> Option<Wanted<'_>> {
        None
    }

    fn begin(&self, _alloc: Global) -> Result<NoText, Memory> {
        Ok(NoText)
    }

    fn take(&self, _alloc: Global, _held: NoText, _text: &'s [u8]) -> Result<NoText, Stop<Why>> {
        // It has no file, so no text is given to it, and it holds nothing of one.
        Err(Stop::Memory)
    }

    fn write<S: Sink + Drop>(&self, alloc: Global, held: NoText, out: S) -> Written<S, Why> {
        let mut sink = out;
        let ended = self.put(alloc, held, &mut sink);
        Written { sink, ended }
    }
}

impl Saying<'_> {
    // Writes its text.
    fn put<S: Sink>(&self, _alloc: Global, _held: NoText, out: &mut S) -> Result<(), Unwritten<Why>>
        requires { (texts : List (List ℕ)) × (length texts ≡ 0) × HoldsNoText texts _held }
        ensures { (texts : List (List ℕ)) → length texts ≡ 0 → HoldsNoText texts _held
            → WriteEnds (Tells self.now.text.now texts) (ExplainsSource texts) ⊥ (S.written out.old) (S.written out.new) (S.faults out.old)
            (S.faults out.new) result }
    {
        match put_all(out, self.text) {
            Ok(()) => Ok(()),
            Err(_) => Err(Unwritten::Fault),
        }
    }
}
