//! Images that may be run.
ghost use Rattle.std.specs.Prelude.{◌≡◌, ◌≤◌, length, IfOk, IfErr};
ghost use Rattle.rb_code.specs.Instructions.Plain.{code as plain};
ghost use Rattle.rb_lists.specs.Lists.{HasLists};
ghost use Rattle.rb_nest.specs.Groups.{memberships};
ghost use Rattle.rb_code.specs.WordMachine.WordRun.{word_text};
ghost use Rattle.rb_trace.specs.Naming.{naming};
ghost use Rattle.rb_verdict.specs.Programs.{MayRun, names_in, program_of};
ghost use Rattle.rb_commands.specs.Held.{IsUnfit};
ghost use Rattle.rb_commands.specs.Written.{EndsOverTurns};

use crate::why::Why;
use rb_base::{MOST_BYTES, Nested};
use rb_code::Code;
use rb_hall::{Fault, Unwritten};
use rb_image::Raw;
use rb_lists::check_lists;
use rb_outside::Sink;
use rb_sched::Schedule;
use rb_turns::run_turns;
use rb_verify::verify;
use std::alloc::Global;
use std::marker::{Brand, Model};
use std::sync::ledger::Blank;

/// Why a program is not run.
#[derive(Clone, Copy)]
pub enum Unfit {
    /// It may not be run.
    Unsound,
    /// Memory is wanting, or its code is too costly to be looked at.
    Memory,
}

/// A program that may be run: its code is sound, and what is printed of each process lies within the words of the process. Contracts see
/// the program.
pub struct Image {
    code: Code,
    nested: Nested,
}

impl Drop for Image {
    fn drop(self) {
        let Image { code: _, nested: _ } = self;
    }
}

impl Model for Image {
    ghost use Rattle.rb_verdict.specs.Programs.{MayRun, Program, program_of};

    ghost Value = { Program };

    ghost view = { λ i. program_of i.code i.nested };

    ghost invariant = { λ i. MayRun (program_of i.code i.nested) };
}

impl Image {
    /// Takes what bytes were read as, if it may be run: its lists are looked at first, and then what its code does.
    pub fn accept(alloc: Global, raw: Raw) -> Result<Image, Unfit>
        ensures same { IfOk result (λ image. image ≡ program_of raw.code raw.nested) }
        ensures fit { IfOk result MayRun }
        ensures unfit { IfErr result (IsUnfit (program_of raw.code raw.nested)) }
    {
        match check_lists(alloc, &raw.code, &raw.nested) {
            Ok(()) => Image::verified(alloc, raw),
            Err(rb_lists::Refusal::Unsound) => Err(Unfit::Unsound),
            Err(rb_lists::Refusal::Memory) => Err(Unfit::Memory),
        }
    }

    // The same where its lists are well formed.
    fn verified(alloc: Global, raw: Raw) -> Result<Image, Unfit>
        requires { HasLists raw.code raw.nested }
        ensures same { IfOk result (λ image. image ≡ program_of raw.code raw.nested) }
        ensures fit { IfOk result MayRun }
        ensures unfit { IfErr result (IsUnfit (program_of raw.code raw.nested)) }
    {
        match verify(alloc, &raw.code, &raw.nested) {
            Ok(()) => Ok(Image {
                code: raw.code,
                nested: raw.nested,
            }),
            Err(rb_verify::Refusal::Unsound) => Err(Unfit::Unsound),
            Err(rb_verify::Refusal::Memory) => Err(Unfit::Memory),
        }
    }

    /// Judges a schedule, runs the program over its turns, and writes the text of the run.
    pub fn run<S: Sink>(self, alloc: Global, text: &[u8], out: &mut S) -> Result<(), Unwritten<Why>>
        requires { length text.now ≤ MOST_BYTES }
        ensures { EndsOverTurns (names_in self) (word_text self.code self.groups) (λ names. naming names ≡ self.code.names) text.now
            (S.written out.old) (S.written out.new) (S.faults out.old) (S.faults out.new) result }
    {
        let Image { code, nested } = self;
        run_over(alloc, code, nested, text, out)
    }
}

// Judges a schedule for code, and runs the code over its turns. A call of its own, as the loop over turns stands in it.
#[inline(never)]
fn run_over<S: Sink>(
    alloc: Global,
    code: Code,
    nested: Nested,
    text: &[u8],
    out: &mut S,
) -> Result<(), Unwritten<Why>>
    requires fit { MayRun (program_of code nested) }
    requires short { length text.now ≤ MOST_BYTES }
    ensures { EndsOverTurns (names_in (program_of code nested)) (word_text (plain code) (memberships nested))
        (λ names. naming names ≡ (plain code).names) text.now (S.written out.old) (S.written out.new) (S.faults out.old) (S.faults out.new) result }
{
    let fault = match Schedule::read(text, &code.names) {
        Ok(schedule) => {
            return run_turns::<Why, S, Brand>(alloc, &code, &nested, schedule, out, Blank::new(1));
        }
        Err(fault) => fault,
    };
    Err(Unwritten::Refused(Fault::Text(fault), Why::Names(code.into_names())))
}
