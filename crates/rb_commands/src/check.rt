//! The command `check`: a source is read, and is accepted or refused.
ghost use Rattle.std.specs.Prelude.{◌≡◌, ◌≤◌, [], ◌∷◌, length, ℕ, List};
ghost use Rattle.rb_hall.specs.Ends.{HoldsOn, IfRefused, WriteEnds};
ghost use Rattle.rb_verdict.specs.Judging.{Judges};
ghost use Rattle.rb_verdict.specs.Words.{Check as Checking, text_named};
ghost use Rattle.rb_commands.specs.Explained.{ExplainsSource};
ghost use Rattle.rb_commands.specs.Held.{HoldsChecked};

use crate::source::judge_source;
use crate::why::Why;
use rb_base::MOST_BYTES;
use rb_hall::{Command, Stop, Unwritten, Wanted, Written};
use rb_outside::{Memory, Sink, put_all};
use std::alloc::Global;

/// `check SOURCE`.
#[derive(Clone, Copy)]
pub struct Check<'a> {
    pub source: &'a str,
}

/// What `check` holds.
#[derive(Clone, Copy)]
pub enum Checked {
    Nothing,
    Accepted,
}

impl<'s> Command<'s> for Check<'_> {
    type Held = Checked;

    type Why = Why;

    ghost wanted = { λ c. text_named c.source.now ∷ [] };

    ghost judges = { λ _. Judges Checking };

    ghost explains = { λ _. ExplainsSource };

    ghost holds = { λ _. HoldsChecked };

    ghost takes = { λ _. ⊥ };

    fn file(&self, number: usize) -> Option<Wanted<'_>> {
        match number {
            0 => Some(Wanted {
                name: self.source,
                most: MOST_BYTES,
            }),
            _ => None,
        }
    }

    fn begin(&self, _alloc: Global) -> Result<Checked, Memory> {
        Ok(Checked::Nothing)
    }

    fn take(&self, alloc: Global, held: Checked, text: &'s [u8]) -> Result<Checked, Stop<Why>> {
        match held {
            Checked::Nothing => match judge_source(alloc, text) {
                Ok(_) => Ok(Checked::Accepted),
                Err(stop) => Err(stop),
            },
            Checked::Accepted => unreachable!(),
        }
    }

    fn write<S: Sink + Drop>(&self, alloc: Global, held: Checked, out: S) -> Written<S, Why> {
        let mut sink = out;
        let ended = self.put(alloc, held, &mut sink);
        Written { sink, ended }
    }
}

impl Check<'_> {
    // Writes its text.
    fn put<S: Sink>(&self, _alloc: Global, held: Checked, out: &mut S) -> Result<(), Unwritten<Why>>
        requires { (texts : List (List ℕ)) × (length texts ≡ 1) × HoldsChecked texts held }
        ensures { (texts : List (List ℕ)) → length texts ≡ 1 → HoldsChecked texts held
            → WriteEnds (Judges Checking texts) (ExplainsSource texts) ⊥ (S.written out.old) (S.written out.new) (S.faults out.old)
            (S.faults out.new) result }
    {
        let _ = held;
        match put_all(out, b"accepted\n") {
            Ok(()) => Ok(()),
            Err(_) => Err(Unwritten::Fault),
        }
    }
}
