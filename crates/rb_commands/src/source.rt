//! The verdict on a source that was read, which several commands share.
ghost use Rattle.std.specs.Prelude.{◌≤◌, [], ◌∷◌, length, IfOk};
ghost use Rattle.rb_hall.specs.Ends.{IfRefused};
ghost use Rattle.rb_judge.specs.Judged.{IsJudged, IsRefusal};
ghost use Rattle.rb_prepare.specs.Prepared.{IsPrepared};
ghost use Rattle.rb_verdict.specs.Texts.{SourceRefused};
ghost use Rattle.rb_commands.specs.Held.{HoldsCompiled, IsStopFor, StopsForSource};

use crate::why::Why;
use rb_base::{MOST_BYTES, Refusal};
use rb_hall::{Fault, Stop};
use rb_judge::{Judged, judge};
use rb_prepare::{Prepared, prepare};
use std::alloc::Global;

/// Judges a source, which is not above its limit.
pub fn judge_source(alloc: Global, text: &[u8]) -> Result<Judged<'_>, Stop<Why>>
    requires { length text.now ≤ MOST_BYTES }
    ensures judged { IfOk result (IsJudged text.now) }
    ensures refused { StopsForSource text.now result }
{
    match judge(alloc, text) {
        Ok(judged) => Ok(judged),
        Err(refusal) => Err(stop_for(text, refusal)),
    }
}

/// The same with the code of the source.
pub fn prepare_source(alloc: Global, text: &[u8]) -> Result<Prepared, Stop<Why>>
    requires { length text.now ≤ MOST_BYTES }
    ensures prepared { IfOk result (IsPrepared text.now) }
    ensures refused { StopsForSource text.now result }
{
    match prepare(alloc, text) {
        Ok(prepared) => Ok(prepared),
        Err(refusal) => Err(stop_for(text, refusal)),
    }
}

// Why a source that is refused so is not taken; the source is seen by the contract alone.
fn stop_for(text: &[u8], refusal: Refusal) -> Stop<Why>
    requires { IsRefusal text.now refusal }
    ensures { IsStopFor text.now result }
{
    let _ = text;
    match refusal {
        Refusal::Fault(fault) => Stop::Refused(Fault::Source(fault), Why::Plain),
        Refusal::Memory => Stop::Memory,
    }
}

/// What a command over one source holds.
#[derive(Drop)]
pub enum Compiled {
    Nothing,
    Program(Prepared),
}

/// Takes the source of such a command.
pub fn take_source(alloc: Global, text: &[u8]) -> Result<Compiled, Stop<Why>>
    requires { length text.now ≤ MOST_BYTES }
    ensures compiled { IfOk result (HoldsCompiled (text.now ∷ [])) }
    ensures refused { StopsForSource text.now result }
{
    match prepare_source(alloc, text) {
        Ok(prepared) => Ok(Compiled::Program(prepared)),
        Err(stop) => Err(stop),
    }
}
