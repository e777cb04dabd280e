//! What a command is to the driver.
ghost use Rattle.std.specs.Prelude.{◌≡◌, ℕ, ◌≤◌, List, [], ◌∷◌, ◌++◌, length, IfOk, MatchOption, slice_get, Some};
ghost use Rattle.rb_hall.specs.Judgement.{Explaining, Judgement, Wants};
ghost use Rattle.rb_hall.specs.Ends.{HoldsOn, IfRefused, MayTake, Refuses, WriteEnds, wanted_of};

use crate::fault::Fault;
use rb_outside::{Memory, Sink};
use std::alloc::Global;

/// A file that a command reads: its name, and how many bytes it may have at most.
#[derive(Clone, Copy)]
pub struct Wanted<'a> {
    pub name: &'a str,
    pub most: usize,
}

/// Why a text is not taken.
#[derive(Drop)]
pub enum Stop<W: Drop> {
    /// It has a fault, of which this is known beside its place.
    Refused(Fault, W),
    /// Memory is wanting.
    Memory,
}

/// Why a text was not written whole.
#[derive(Drop)]
pub enum Unwritten<W: Drop> {
    /// The last text, which was still to be judged, has a fault; nothing was written.
    Refused(Fault, W),
    /// A write failed.
    Fault,
    /// Memory is wanting.
    Memory,
}

/// The sink that a command wrote to, and why its text was not written whole, where it was not.
#[derive(Drop)]
pub struct Written<S: Drop, W: Drop> {
    pub sink: S,
    pub ended: Result<(), Unwritten<W>>,
}

/// A command over texts that live as long as `'s`. It says which files it wants, and judges their texts one after another; what it holds of
/// those that it has judged may borrow from them.
pub trait Command<'s> {
    /// What it holds of the texts that were judged.
    type Held: Drop;

    /// What it knows of a fault beside the fault's place and the text that has it, so that a reason can be told.
    type Why: Drop;

    /// The files that it wants, in their order.
    ghost wanted: { Self → List Wants };

    /// What it makes of the texts that were read, none of which is above its limit.
    ghost judges: { Self → List (List ℕ) → Judgement → Type 0 };

    /// What is known of the fault for which the last of these texts is refused.
    ghost explains: { Self → Explaining Self.Why };

    /// What is held after these texts.
    ghost holds: { Self → List (List ℕ) → Self.Held → Type 0 };

    /// Whether it takes memory while it writes.
    ghost takes: { Self → Type 0 };

    /// The file that it wants after so many.
    fn file(&self, number: usize) -> Option<Wanted<'_>>
        ensures { MatchOption result (length (wanted self.now) ≤ number)
            (λ file. slice_get (wanted self.now) number ≡ Some (wanted_of file)) };

    /// What it holds before any text.
    fn begin(&self, alloc: Global) -> Result<Self::Held, Memory>
        ensures { IfOk result (HoldsOn (judges self.now) (wanted self.now) (holds self.now) []) };

    /// Takes its next text, which is not above its limit, and judges it, unless it is the last and `write` is to.
    fn take(
        &self,
        alloc: Global,
        held: Self::Held,
        text: &'s [u8],
    ) -> Result<Self::Held, Stop<Self::Why>>
        requires { MayTake (wanted self.now) (holds self.now) held text.now }
        ensures held { IfOk result (λ next. (texts : List (List ℕ)) → holds self.now texts held
            → HoldsOn (judges self.now) (wanted self.now) (holds self.now) (texts ++ text.now ∷ []) next) }
        ensures refused { IfRefused result (λ fault why. (texts : List (List ℕ)) → holds self.now texts held
            → Refuses (judges self.now) (explains self.now) (texts ++ text.now ∷ []) fault why) };

    /// Judges what is still to be judged once the texts of all files were read, and writes its text. (What is read of a last text may borrow
    /// from what is held of those before it, so it can't be held beside that.)
    fn write<S: Sink + Drop>(
        &self,
        alloc: Global,
        held: Self::Held,
        out: S,
    ) -> Written<S, Self::Why>
        requires { (texts : List (List ℕ)) × (length texts ≡ length (wanted self.now)) × holds self.now texts held }
        ensures { (texts : List (List ℕ)) → length texts ≡ length (wanted self.now) → holds self.now texts held
            → WriteEnds (judges self.now texts) (explains self.now texts) (takes self.now) (S.written out) (S.written result.sink)
            (S.faults out) (S.faults result.sink) result.ended };
}
