//! The command `faults`: a source is read, and each fault that is told of it is written with its reason.
ghost use Rattle.std.specs.Prelude.{◌≡◌, ◌≤◌, [], ◌∷◌, length, ℕ, IfOk, List};
ghost use Rattle.rb_hall.specs.Ends.{HoldsOn, IfRefused, WriteEnds};
ghost use Rattle.rb_hall.specs.Judgement.{Writes};
ghost use Rattle.rb_verdict.specs.Judging.{accepted_line};
ghost use Rattle.rb_verdict.specs.Words.{text_named};
ghost use Rattle.rb_commands.specs.Explained.{ExplainsSource};
ghost use Rattle.rb_show.specs.Faulted.{AreReasons, HoldsListed, IsListOf, JudgesFaults};

use rb_base::{MOST_BYTES, SourceFault};
use rb_commands::Why;
use rb_faults::faults_of_source;
use rb_hall::{Command, Stop, Unwritten, Wanted, Written};
use rb_outside::{Memory, Sink, put_all};
use rb_why::source_reason;
use std::alloc::Global;

/// `faults SOURCE`.
#[derive(Clone, Copy)]
pub struct Faults<'a> {
    pub source: &'a str,
}

/// What `faults` holds: what is written of its source.
#[derive(Drop)]
pub enum Listed {
    Nothing,
    Text(Vec<u8>),
}

impl<'s> Command<'s> for Faults<'_> {
    type Held = Listed;

    type Why = Why;

    ghost wanted = { λ c. text_named c.source.now ∷ [] };

    ghost judges = { λ c. JudgesFaults c.source.now };

    ghost explains = { λ _. ExplainsSource };

    ghost holds = { λ c. HoldsListed c.source.now };

    ghost takes = { λ _. ⊥ };

    fn file(&self, number: usize) -> Option<Wanted<'_>> {
        match number {
            0 => Some(Wanted {
                name: self.source,
                most: MOST_BYTES,
            }),
            _ => None,
        }
    }

    fn begin(&self, _alloc: Global) -> Result<Listed, Memory> {
        Ok(Listed::Nothing)
    }

    fn take(&self, alloc: Global, held: Listed, text: &'s [u8]) -> Result<Listed, Stop<Why>> {
        match held {
            Listed::Nothing => match list_faults(alloc, self.source.as_bytes(), text) {
                Ok(told) => Ok(Listed::Text(told)),
                Err(_) => Err(Stop::Memory),
            },
            Listed::Text(_) => unreachable!(),
        }
    }

    fn write<S: Sink + Drop>(&self, alloc: Global, held: Listed, out: S) -> Written<S, Why> {
        let mut sink = out;
        let ended = self.put(alloc, held, &mut sink);
        Written { sink, ended }
    }
}

impl Faults<'_> {
    // Writes what is told.
    fn put<S: Sink>(&self, _alloc: Global, held: Listed, out: &mut S) -> Result<(), Unwritten<Why>>
        requires { (texts : List (List ℕ)) × (length texts ≡ 1) × HoldsListed self.now.source.now texts held }
        ensures { (texts : List (List ℕ)) → length texts ≡ 1 → HoldsListed self.now.source.now texts held
            → WriteEnds (JudgesFaults self.now.source.now texts) (ExplainsSource texts) ⊥ (S.written out.old) (S.written out.new) (S.faults out.old)
            (S.faults out.new) result }
    {
        let Listed::Text(told) = held else {
            unreachable!()
        };
        match put_all(out, told.as_slice()) {
            Ok(()) => Ok(()),
            Err(_) => Err(Unwritten::Fault),
        }
    }
}

// What is told of a source of this file.
fn list_faults(alloc: Global, file: &[u8], source: &[u8]) -> Result<Vec<u8>, rb_base::Memory>
    requires { length source.now ≤ MOST_BYTES }
    ensures { IfOk result (λ told. JudgesFaults file.now (source.now ∷ []) (Writes told.items)) }
{
    let faults = faults_of_source(alloc, source)?;
    list_of(alloc, file, source, faults.as_slice())
}

// What is told of it with these faults.
fn list_of(
    alloc: Global,
    file: &[u8],
    source: &[u8],
    faults: &[SourceFault],
) -> Result<Vec<u8>, rb_base::Memory>
    requires { length source.now ≤ MOST_BYTES }
    ensures { IfOk result (λ told. IsListOf file.now source.now faults.now told.items) }
{
    if faults.is_empty() {
        accepted(alloc)
    } else {
        reasons(alloc, file, source, faults)
    }
}

// That it is accepted.
fn accepted(alloc: Global) -> Result<Vec<u8>, rb_base::Memory>
    ensures { IfOk result (λ told. told.items ≡ accepted_line) }
{
    let mut told = Vec::new(alloc);
    told.extend_from_slice(b"accepted\n")?;
    Ok(told)
}

// The reasons for these faults.
fn reasons(
    alloc: Global,
    file: &[u8],
    source: &[u8],
    faults: &[SourceFault],
) -> Result<Vec<u8>, rb_base::Memory>
    requires { length source.now ≤ MOST_BYTES }
    ensures { IfOk result (λ told. AreReasons file.now source.now faults.now told.items) }
{
    let mut told = Vec::new(alloc);
    for fault in faults {
        let reason = source_reason(alloc, file, source, *fault)?;
        told.extend_from_slice(reason.as_slice())?;
    }
    Ok(told)
}
