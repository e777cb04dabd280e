//! The command `load`: an image is read, and a schedule for it, and the text of the image's run is written.
ghost use Rattle.std.specs.Prelude.{◌≡◌, ◌≤◌, [], ◌∷◌, length, MatchOption, slice_get, Some, IfOk, ℕ, List};
ghost use Rattle.rb_hall.specs.Ends.{HoldsOn, IfRefused, WriteEnds, wanted_of};
ghost use Rattle.rb_verdict.specs.Judging.{Judges};
ghost use Rattle.rb_verdict.specs.Texts.{ImageHolds};
ghost use Rattle.rb_verdict.specs.Words.{Load as Loading, image_named, text_named};
ghost use Rattle.rb_verdict.specs.declared.limits.TheConstants.{MOST_IMAGE};
ghost use Rattle.rb_commands.specs.Explained.{ExplainsProgram, NamesOfImage};
ghost use Rattle.rb_commands.specs.Held.{HoldsLoaded, StopsForImage};

use crate::image::{Image, Unfit};
use crate::why::Why;
use rb_base::MOST_BYTES;
use rb_hall::{Command, Fault, Stop, Unwritten, Wanted, Written};
use rb_image::{FormRefusal, read_image};
use rb_outside::{Memory, Sink};
use rb_verdict::MOST_IMAGE;
use std::alloc::Global;

/// `load IMAGE SCHEDULE`.
#[derive(Clone, Copy)]
pub struct Load<'a> {
    pub image: &'a str,
    pub schedule: &'a str,
}

/// What `load` holds: the program, and then the schedule, which is still to be judged, as it borrows the program's names.
#[derive(Drop)]
pub enum Loaded<'s> {
    Nothing,
    Program(Image),
    Both(Image, &'s [u8]),
}

impl<'s> Command<'s> for Load<'_> {
    type Held = Loaded<'s>;

    type Why = Why;

    ghost wanted = { λ c. image_named c.image.now ∷ text_named c.schedule.now ∷ [] };

    ghost judges = { λ _. Judges Loading };

    ghost explains = { λ _. ExplainsProgram NamesOfImage };

    ghost holds = { λ _. HoldsLoaded };

    ghost takes = { λ _. ⊥ };

    fn file(&self, number: usize) -> Option<Wanted<'_>>
        ensures { MatchOption result (2 ≤ number)
            (λ file. slice_get (image_named self.now.image.now ∷ text_named self.now.schedule.now ∷ []) number ≡ Some (wanted_of file)) }
    {
        match number {
            0 => Some(Wanted {
                name: self.image,
                most: MOST_IMAGE,
            }),
            1 => Some(Wanted {
                name: self.schedule,
                most: MOST_BYTES,
            }),
            _ => None,
        }
    }

    fn begin(&self, _alloc: Global) -> Result<Loaded<'s>, Memory> {
        Ok(Loaded::Nothing)
    }

    fn take(
        &self,
        alloc: Global,
        held: Loaded<'s>,
        text: &'s [u8],
    ) -> Result<Loaded<'s>, Stop<Why>> {
        match held {
            Loaded::Nothing => match take_image(alloc, text) {
                Ok(image) => Ok(Loaded::Program(image)),
                Err(stop) => Err(stop),
            },
            Loaded::Program(image) => Ok(Loaded::Both(image, text)),
            Loaded::Both(_, _) => unreachable!(),
        }
    }

    fn write<S: Sink + Drop>(&self, alloc: Global, held: Loaded<'s>, out: S) -> Written<S, Why> {
        let mut sink = out;
        let ended = self.put(alloc, held, &mut sink);
        Written { sink, ended }
    }
}

impl Load<'_> {
    // Writes its text.
    fn put<S: Sink>(
        &self,
        alloc: Global,
        held: Loaded<'_>,
        out: &mut S,
    ) -> Result<(), Unwritten<Why>>
        requires { (texts : List (List ℕ)) × (length texts ≡ 2) × HoldsLoaded texts held }
        ensures { (texts : List (List ℕ)) → length texts ≡ 2 → HoldsLoaded texts held.entry
            → WriteEnds (Judges Loading texts) (ExplainsProgram NamesOfImage texts) ⊥ (S.written out.old) (S.written out.new) (S.faults out.old)
            (S.faults out.new) result }
    {
        let Loaded::Both(image, text) = held else {
            unreachable!()
        };
        image.run(alloc, text, out)
    }
}

// Judges an image.
fn take_image(alloc: Global, bytes: &[u8]) -> Result<Image, Stop<Why>>
    requires { length bytes.now ≤ MOST_IMAGE }
    ensures holds { IfOk result (ImageHolds bytes.now) }
    ensures refused { StopsForImage bytes.now result }
{
    match read_image(alloc, bytes) {
        Ok(raw) => match Image::accept(alloc, raw) {
            Ok(image) => Ok(image),
            Err(Unfit::Unsound) => Err(Stop::Refused(Fault::Unsound, Why::Plain)),
            Err(Unfit::Memory) => Err(Stop::Memory),
        },
        Err(FormRefusal::Form) => Err(Stop::Refused(Fault::NoImage, Why::Plain)),
        Err(FormRefusal::Memory) => Err(Stop::Memory),
    }
}
