//! All instructions up to an end.

ghost use Rattle.std.specs.Prelude.{◌≡◌, ◌+◌, ◌*◌, ◌<◌, ◌≤◌, ◌^◌, ℤ, List, [], length, Option, Some};
ghost use Rattle.rb_code.specs.Instructions.Plain.{Code as Plain, code as plain};
ghost use Rattle.rb_code.specs.WordMachine.Act.{execute};
ghost use Rattle.rb_code.specs.SoundCode.Safe.{IsUnchanged, Safe};
ghost use Rattle.rb_code.specs.SoundCode.Stays.{Stays, entry_calls};
ghost use Rattle.rb_code.specs.WordMachine.Turn.{most_steps, wants_there};
ghost use Rattle.rb_world.specs.World.{status_at};
ghost use Rattle.rb_world.specs.World.{copy_of, last_of};
ghost use Rattle.rb_proc.specs.Runs.{CursorsRise, KeepsEnded, TellsDone, done_or_running};
ghost use Rattle.rb_operands.specs.Outcomes.{ended_of};
ghost use Rattle.rb_proc.specs.Outcomes.{whole};
ghost use Rattle.rb_operands.specs.Pieces.{AreTexts};
ghost use Rattle.rb_proc.specs.Sees.{AreSized, IsTurnOf, see_of};
ghost use Rattle.rb_proc.specs.Work.{named_along};

use crate::instruction::act;
use crate::sight::Sight;
use rb_base::Steps;
use rb_code::{Code, Instr};
use rb_mail::Mails;
use rb_operands::deciding::{decide, instr_at};
use rb_operands::operands::Operands;
use rb_operands::{Bench, Ended, Next};
use rb_recoverable::recoverable::Recoverable;
use std::sync::ledger::Ledger;

/// Carries out the instructions from an address on, up to an end. At most three ticks for each word that they name.
#[inline(always)]
pub fn run<L: Ledger>(
    code: &Code,
    sight: &Sight,
    from: u32,
    operands: &mut Operands<'_>,
    bench: &mut Bench,
    memory: &mut Recoverable<L>,
    mails: &mut Mails,
    steps: &mut Steps<L>,
) -> Ended
    requires length { length code.now.instrs.items < 2 ^ 32 }
    requires texts { AreTexts (plain code.now).texts }
    requires turn { IsTurnOf (plain code.now) sight.now }
    requires none_waits { memory.old.waiting ≡ [] }
    requires sized { AreSized (plain code.now) mails.old }
    requires safe { Safe (plain code.now) (see_of sight.now memory.old.levels)
        (IsUnchanged (whole (plain code.now).texts bench.old memory.old mails.old))
        (most_steps (plain code.now)) from operands.old
        (whole (plain code.now).texts bench.old memory.old mails.old) }
    requires stays { (start : List ℤ) × CursorsRise (plain code.now) sight.now.process start
        × Stays (plain code.now) (see_of sight.now memory.old.levels)
        (entry_calls (copy_of (last_of memory.old.levels))) start (most_steps (plain code.now)) from operands.old
        (whole (plain code.now).texts bench.old memory.old mails.old) }
    ensures ended { ended_of result (whole (plain code.now).texts bench.new memory.new mails.new)
        ≡ execute (plain code.now) (see_of sight.now memory.old.levels)
        (most_steps (plain code.now)) from operands.old
        (whole (plain code.now).texts bench.old memory.old mails.old) }
    ensures kept { KeepsEnded result memory.old memory.new mails.old mails.new }
    ensures done { TellsDone (plain code.now) result }
    ensures sized { AreSized (plain code.now) mails.new }
    ensures work { steps.new
        ≤ steps.old + 3 * named_along (plain code.now) (see_of sight.now memory.old.levels)
        (most_steps (plain code.now)) from operands.old
        (whole (plain code.now).texts bench.old memory.old mails.old) }
{
    let instrs = code.instrs.as_slice();
    let mut at = from as usize;
    'turn: loop {
        let instr = instr_at(instrs, at);
        // So the truth of a comparison finds room.
        operands.are_few();
        match act(
            code, sight, instr, at, operands, bench, memory, mails, steps,
        ) {
            Next::Go(to) => at = to,
            Next::Holds(holds) => at = decide(instrs, at + 1, holds, operands),
            Next::Stop => return Ended::Stop(at as u32, is_done(instr)),
            Next::Accepts(to) => return Ended::Accepts(to),
            Next::Trap(cause) => return Ended::Trap(cause),
        }
    }
}

// Whether a process is done that stands at this instruction.
#[inline(always)]
fn is_done(instr: &Instr) -> bool
    ensures { (c : Plain) (next : Option Instr) → status_at (wants_there c (Some instr.now) next) ≡ done_or_running result }
{
    match *instr {
        Instr::Done => true,
        _ => false,
    }
}
