//! What a program comes to over all its schedules, and what is told of it.
ghost use Rattle.std.specs.Prelude.{◌≡◌, ◌<◌, IfOk};
ghost use Rattle.rb_code.specs.Instructions.Plain.{code as plain};
ghost use Rattle.rb_code.specs.SoundCode.WellFormed.{IsSound};
ghost use Rattle.rb_conv.specs.Conversations.{memberships, opening};
ghost use Rattle.rb_explore.specs.System.{IsLawful};
ghost use Rattle.rb_hall.specs.Ends.{WriteEnds};
ghost use Rattle.rb_outcomes.specs.Programs.{system_of_code};
ghost use Rattle.rb_recovery.specs.Worlds.{counts_of};
ghost use Rattle.rb_trace.specs.Naming.{naming};
ghost use Rattle.rb_commands.specs.declared.why.Why.TheVariants.{Plain};
ghost use Rattle.rb_schedules.specs.Plain.{plain_answer};
ghost use Rattle.rb_schedules.specs.Promises.{AnswersCode};
ghost use Rattle.rb_schedules.specs.declared.answer.TheConstants.{LIMITS};
ghost use Rattle.rb_show.specs.Explored.{told_of};

use rb_base::{Memory, Names, Steps};
use rb_commands::Why;
use rb_hall::{Fault, Unwritten};
use rb_outside::Sink;
use rb_prepare::Prepared;
use rb_schedules::{Answer, LIMITS, write_schedule};
use std::alloc::Global;
use std::sync::ledger::{Blank, Ledger};

/// What a program comes to over all its schedules. The ledger counts steps, which contracts alone see.
pub fn search<L: Ledger>(alloc: Global, prepared: &Prepared, blank: Blank) -> Result<Answer, Memory>
    requires name { blank.name ≡ L.name }
    requires parts { blank.parts ≡ L.parts }
    requires backed { 0 < blank.parts }
    requires sound { IsSound (plain prepared.now.code) (memberships (opening prepared.now.nested)) (counts_of (opening prepared.now.nested)) }
    requires lawful { IsLawful (system_of_code (plain prepared.now.code) (memberships (opening prepared.now.nested))) }
    ensures { IfOk result (λ a. AnswersCode (plain prepared.now.code) (memberships (opening prepared.now.nested)) LIMITS (plain_answer a)) }
{
    let steps = Steps::<L>::start(blank);
    Answer::find(alloc, &prepared.code, &prepared.nested, &LIMITS, steps)
}

/// Writes what was found, or the schedule of one outcome; or refuses its number, where the program has none.
pub fn tell_answer<S: Sink>(
    names: &Names,
    answer: &Answer,
    number: Option<u64>,
    out: &mut S,
) -> Result<(), Unwritten<Why>>
    ensures { WriteEnds (λ judgement. judgement ≡ told_of (naming names.now) number (plain_answer answer.now)) (λ fault known. known ≡ Plain) ⊥
        (S.written out.old) (S.written out.new) (S.faults out.old) (S.faults out.new) result }
{
    let put = match number {
        None => answer.write(names, out),
        Some(number) => match answer.schedule(number) {
            Some(turns) => write_schedule(names, turns, out),
            None => return Err(Unwritten::Refused(Fault::NoOutcome(number), Why::Plain)),
        },
    };
    match put {
        Ok(()) => Ok(()),
        Err(_) => Err(Unwritten::Fault),
    }
}
