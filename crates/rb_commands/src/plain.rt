//! The command `plain`: a source is read, and a record for it, and the text of the plain run of the one over the other is written.
ghost use Rattle.std.specs.Prelude.{◌≡◌, ◌≤◌, ℕ, List, [], ◌∷◌, length, MatchOption, slice_get, vec_len, Some, Err};
ghost use Rattle.rb_hall.specs.Ends.{HoldsOn, IfRefused, WriteEnds, wanted_of};
ghost use Rattle.rb_verdict.specs.Judging.{Judges};
ghost use Rattle.rb_judge.specs.Judged.{IsJudged};
ghost use Rattle.rb_meaning.specs.PlainRun.{plain_text};
ghost use Rattle.rb_record.specs.Recorded.{AreKept};
ghost use Rattle.rb_syntax.specs.Plain.{tree};
ghost use Rattle.rb_verdict.specs.Words.{Replay, text_named};
ghost use Rattle.rb_commands.specs.Explained.{ExplainsRecord};
ghost use Rattle.rb_commands.specs.Held.{HoldsRecord};
ghost use Rattle.rb_commands.specs.Written.{EndsForStuck, EndsPlain};

use crate::source::judge_source;
use crate::why::Why;
use rb_base::MOST_BYTES;
use rb_hall::{Command, Fault, Stop, Unwritten, Wanted, Written};
use rb_judge::Judged;
use rb_levels::PlainAnswer;
use rb_outside::{Memory, Sink};
use rb_plain::{plain, stuck_cause};
use rb_record::{Record, RecordRefusal};
use std::alloc::Global;

/// `plain SOURCE RECORD`.
#[derive(Clone, Copy)]
pub struct Plain<'a> {
    pub source: &'a str,
    pub kept: &'a str,
}

/// What `plain` holds: the source, which borrows from its text, and then the record.
#[derive(Drop)]
pub enum Played<'s> {
    Nothing,
    Source(Judged<'s>),
    Both(Judged<'s>, Record),
}

impl<'s> Command<'s> for Plain<'_> {
    type Held = Played<'s>;

    type Why = Why;

    ghost wanted = { λ c. text_named c.source.now ∷ text_named c.kept.now ∷ [] };

    ghost judges = { λ _. Judges Replay };

    ghost explains = { λ _. ExplainsRecord };

    ghost holds = { λ _. HoldsRecord };

    ghost takes = { λ _. Unit {0} };

    fn file(&self, number: usize) -> Option<Wanted<'_>>
        ensures { MatchOption result (2 ≤ number)
            (λ file. slice_get (text_named self.now.source.now ∷ text_named self.now.kept.now ∷ []) number ≡ Some (wanted_of file)) }
    {
        match number {
            0 => Some(Wanted {
                name: self.source,
                most: MOST_BYTES,
            }),
            1 => Some(Wanted {
                name: self.kept,
                most: MOST_BYTES,
            }),
            _ => None,
        }
    }

    fn begin(&self, _alloc: Global) -> Result<Played<'s>, Memory> {
        Ok(Played::Nothing)
    }

    fn take(
        &self,
        alloc: Global,
        held: Played<'s>,
        text: &'s [u8],
    ) -> Result<Played<'s>, Stop<Why>> {
        match held {
            Played::Nothing => match judge_source(alloc, text) {
                Ok(judged) => Ok(Played::Source(judged)),
                Err(stop) => Err(stop),
            },
            Played::Source(judged) => match Record::read(alloc, text, &judged.names) {
                Ok(turns) => Ok(Played::Both(judged, turns)),
                Err(RecordRefusal::Fault(fault)) => Err(Stop::Refused(
                    Fault::Text(fault),
                    Why::Names(judged.names),
                )),
                Err(RecordRefusal::Memory) => Err(Stop::Memory),
            },
            Played::Both(_, _) => unreachable!(),
        }
    }

    fn write<S: Sink + Drop>(&self, alloc: Global, held: Played<'s>, out: S) -> Written<S, Why> {
        let mut sink = out;
        let ended = self.put(alloc, held, &mut sink);
        Written { sink, ended }
    }
}

impl Plain<'_> {
    // Writes its text.
    fn put<S: Sink>(
        &self,
        alloc: Global,
        held: Played<'_>,
        out: &mut S,
    ) -> Result<(), Unwritten<Why>>
        requires { (texts : List (List ℕ)) × (length texts ≡ 2) × HoldsRecord texts held }
        ensures { (texts : List (List ℕ)) → length texts ≡ 2 → HoldsRecord texts held.entry
            → WriteEnds (Judges Replay texts) (ExplainsRecord texts) (Unit {0}) (S.written out.old) (S.written out.new) (S.faults out.old)
            (S.faults out.new) result }
    {
        let Played::Both(judged, turns) = held else {
            unreachable!()
        };
        play(alloc, judged, &turns, out)
    }
}

// Plays a record alone over the tree of its source.
fn play<S: Sink>(
    alloc: Global,
    judged: Judged<'_>,
    turns: &Record,
    out: &mut S,
) -> Result<(), Unwritten<Why>>
    requires judged { (source : List ℕ) × IsJudged source judged }
    requires known { AreKept (vec_len judged.names.processes) 0 turns.now }
    ensures { EndsPlain (tree judged.entry.checked.program) turns.now (S.written out.old) (S.written out.new) (S.faults out.old) (S.faults out.new) result }
{
    let program = &judged.checked.program;
    match plain(alloc, program, &judged.nested, &judged.names, turns, out) {
        Ok(()) => Ok(()),
        Err(PlainAnswer::Stuck(turn)) => Err(stuck_at(alloc, judged, turns, turn)),
        Err(PlainAnswer::WriteFault) => Err(Unwritten::Fault),
        Err(PlainAnswer::Memory) => Err(Unwritten::Memory),
    }
}

// Why a plain run that is stuck at this turn is refused.
fn stuck_at(alloc: Global, judged: Judged<'_>, turns: &Record, turn: u32) -> Unwritten<Why>
    requires judged { (source : List ℕ) × IsJudged source judged }
    requires known { AreKept (vec_len judged.names.processes) 0 turns.now }
    requires stuck { plain_text (tree judged.checked.program) turns.now ≡ Err turn }
    ensures { EndsForStuck (tree judged.entry.checked.program) turns.now turn result }
{
    match stuck_cause(alloc, &judged.checked.program, &judged.nested, turns, turn) {
        Ok(Some(found)) => Unwritten::Refused(Fault::Stuck(turn), Why::Stuck(found, judged.names)),
        Ok(None) => unreachable!(),
        Err(_) => Unwritten::Memory,
    }
}
