//! The command `code`: a source is read, and its code is listed.
ghost use Rattle.std.specs.Prelude.{◌≡◌, ◌≤◌, [], ◌∷◌, length, ℕ, List};
ghost use Rattle.rb_hall.specs.Ends.{HoldsOn, IfRefused, WriteEnds};
ghost use Rattle.rb_verdict.specs.Judging.{Judges};
ghost use Rattle.rb_verdict.specs.Words.{ListCode, text_named};
ghost use Rattle.rb_commands.specs.Explained.{ExplainsSource};
ghost use Rattle.rb_commands.specs.Held.{HoldsCompiled};

use crate::source::{Compiled, take_source};
use crate::why::Why;
use rb_base::MOST_BYTES;
use rb_code::listing::listing;
use rb_hall::{Command, Stop, Unwritten, Wanted, Written};
use rb_outside::{Memory, Sink};
use std::alloc::Global;

/// `code SOURCE`.
#[derive(Clone, Copy)]
pub struct Code<'a> {
    pub source: &'a str,
}

impl<'s> Command<'s> for Code<'_> {
    type Held = Compiled;

    type Why = Why;

    ghost wanted = { λ c. text_named c.source.now ∷ [] };

    ghost judges = { λ _. Judges ListCode };

    ghost explains = { λ _. ExplainsSource };

    ghost holds = { λ _. HoldsCompiled };

    ghost takes = { λ _. ⊥ };

    fn file(&self, number: usize) -> Option<Wanted<'_>> {
        match number {
            0 => Some(Wanted {
                name: self.source,
                most: MOST_BYTES,
            }),
            _ => None,
        }
    }

    fn begin(&self, _alloc: Global) -> Result<Compiled, Memory> {
        Ok(Compiled::Nothing)
    }

    fn take(&self, alloc: Global, held: Compiled, text: &'s [u8]) -> Result<Compiled, Stop<Why>> {
        match held {
            Compiled::Nothing => take_source(alloc, text),
            Compiled::Program(_) => unreachable!(),
        }
    }

    fn write<S: Sink + Drop>(&self, alloc: Global, held: Compiled, out: S) -> Written<S, Why> {
        let mut sink = out;
        let ended = self.put(alloc, held, &mut sink);
        Written { sink, ended }
    }
}

impl Code<'_> {
    // Writes its text.
    fn put<S: Sink>(
        &self,
        _alloc: Global,
        held: Compiled,
        out: &mut S,
    ) -> Result<(), Unwritten<Why>>
        requires { (texts : List (List ℕ)) × (length texts ≡ 1) × HoldsCompiled texts held }
        ensures { (texts : List (List ℕ)) → length texts ≡ 1 → HoldsCompiled texts held
            → WriteEnds (Judges ListCode texts) (ExplainsSource texts) ⊥ (S.written out.old) (S.written out.new) (S.faults out.old)
            (S.faults out.new) result }
    {
        let Compiled::Program(prepared) = held else {
            unreachable!()
        };
        match listing(&prepared.code, out) {
            Ok(()) => Ok(()),
            Err(_) => Err(Unwritten::Fault),
        }
    }
}
