//! Instructions by kind: all but the most frequent ones.

ghost use Rattle.std.specs.Prelude.{◌≡◌, ℕ, ◌+◌, ◌*◌, ◌<◌, ◌≤◌, ◌^◌, List, [], length, map, Option};
ghost use Rattle.rb_world.specs.Slots.{Slots};
ghost use Rattle.rb_world.specs.World.{copy_of, last_of};
ghost use Rattle.rb_code.specs.Instructions.Plain.{Code as Plain, code as plain};
ghost use Rattle.rb_code.specs.WordMachine.Workspace.{Counting as Counts, Workspace};
ghost use Rattle.rb_code.specs.WordMachine.Act.{Sight as Seen, act as acted};
ghost use Rattle.rb_code.specs.SoundCode.Safe.{Ready};
ghost use Rattle.rb_code.specs.SoundCode.Stays.{entry_calls};
ghost use Rattle.rb_operands.specs.Outcomes.{outcome_of};
ghost use Rattle.rb_operands.specs.Pieces.{AreTexts};
ghost use Rattle.rb_proc.specs.Acts.{CursorRises, LeavesEnough};
ghost use Rattle.rb_proc.specs.Kinds.{Channels, Counters as OnCounters, Frames, Lines, Numbers, instruction_kind};
ghost use Rattle.rb_proc.specs.Outcomes.{Keeps, mem, whole};
ghost use Rattle.rb_proc.specs.Sees.{AreSized, IsTurnOf, see_of};
ghost use Rattle.rb_proc.specs.Work.{named};

use crate::channels::{print, put_value, take_message};
use crate::sight::Sight;
use crate::words::{call, drop_words, frame, go_back};
use rb_base::Steps;
use rb_code::{Code, Instr};
use rb_mail::Mails;
use rb_operands::calculate::{again, counter, negate, operate, range, test_zero};
use rb_operands::counters::Counters;
use rb_operands::line::Piece;
use rb_operands::operands::Operands;
use rb_operands::{Bench, Next};
use rb_recoverable::recoverable::Recoverable;
use rb_syntax::Op;
use std::sync::ledger::Ledger;

/// An instruction on numbers alone.
#[inline(always)]
pub fn act_on_numbers(instr: &Instr, at: usize, operands: &mut Operands<'_>) -> Next
    requires kind { instruction_kind instr.now ≡ Numbers }
    requires at { at + 1 < 2 ^ 32 }
    requires ready { (c : Plain) × (see : Seen) × (m : Workspace) × Ready c see instr.now operands.old m }
    ensures moved { (c : Plain) (see : Seen) (m : Workspace)
        → outcome_of result at operands.new m ≡ acted c see instr.now at operands.old m }
{
    match *instr {
        Instr::Mul => operate(Op::Mul, at, operands),
        Instr::Div => operate(Op::Div, at, operands),
        Instr::Rem => operate(Op::Rem, at, operands),
        Instr::Neg => negate(at, operands),
        Instr::Not => test_zero(true, at, operands),
        Instr::Bool => test_zero(false, at, operands),
        _ => unreachable!(),
    }
}

/// An instruction that adds words on top of the others, or takes some away.
#[inline(always)]
pub fn act_on_frames<L: Ledger>(
    code: &Code,
    sight: &Sight,
    instr: &Instr,
    at: usize,
    operands: &mut Operands<'_>,
    memory: &mut Recoverable<L>,
    steps: &mut Steps<L>,
) -> Next
    requires kind { instruction_kind instr.now ≡ Frames }
    requires at { at + 1 < 2 ^ 32 }
    requires turn { IsTurnOf (plain code.now) sight.now }
    requires ready { (pieces : List (List ℕ)) × (counters : List (Option Counts)) × (slots : Slots)
        × Ready (plain code.now) (see_of sight.now memory.old.levels) instr.now operands.old
        (mem memory.old pieces counters slots) }
    requires stays { (pieces : List (List ℕ)) × (counters : List (Option Counts)) × (slots : Slots)
        × LeavesEnough (entry_calls (copy_of (last_of memory.old.levels)))
        (acted (plain code.now) (see_of sight.now memory.old.levels) instr.now at operands.old (mem memory.old pieces counters slots)) }
    ensures moved { (pieces : List (List ℕ)) (counters : List (Option Counts)) (slots : Slots)
        → outcome_of result at operands.new (mem memory.new pieces counters slots)
        ≡ acted (plain code.now) (see_of sight.now memory.old.levels) instr.now at operands.old (mem memory.old pieces counters slots) }
    ensures kept { (slots : Slots) → Keeps result memory.old memory.new slots slots }
    ensures work { steps.new ≤ steps.old + 3 * named instr.now }
{
    match *instr {
        Instr::Frame(n) => frame(n, sight.most(code), at, memory, steps),
        Instr::Drop(n) => drop_words(n, at, memory),
        Instr::Call(to, count, zeros) => {
            let most = sight.most(code);
            call(to, count, zeros, most, at, operands, memory, steps)
        }
        Instr::Return => go_back(at, memory),
        _ => unreachable!(),
    }
}

/// An instruction on the line that is made.
#[inline(always)]
pub fn act_on_line<L: Ledger>(
    code: &Code,
    instr: &Instr,
    at: usize,
    operands: &mut Operands<'_>,
    bench: &mut Bench,
    memory: &mut Recoverable<L>,
    steps: &mut Steps<L>,
) -> Next
    requires kind { instruction_kind instr.now ≡ Lines }
    requires at { at + 1 < 2 ^ 32 }
    requires texts { AreTexts (plain code.now).texts }
    requires none_waits { memory.old.waiting ≡ [] }
    requires ready { (see : Seen) × (slots : Slots)
        × Ready (plain code.now) see instr.now operands.old (whole (plain code.now).texts bench.old memory.old slots) }
    ensures moved { (see : Seen) (slots : Slots)
        → outcome_of result at operands.new (whole (plain code.now).texts bench.new memory.new slots)
        ≡ acted (plain code.now) see instr.now at operands.old (whole (plain code.now).texts bench.old memory.old slots) }
    ensures kept { (slots : Slots) → Keeps result memory.old memory.new slots slots }
    ensures work { steps.new ≤ steps.old + 3 * named instr.now }
{
    match *instr {
        Instr::Text(k) => {
            bench.line.add(Piece::Text(k));
            Next::Go(at + 1)
        }
        Instr::Item => {
            let number = operands.pop();
            bench.line.add(Piece::Number(number));
            Next::Go(at + 1)
        }
        Instr::Print => print(&code.texts, at, &mut bench.line, memory, steps),
        _ => unreachable!(),
    }
}

/// An instruction on a channel.
#[inline(always)]
pub fn act_on_channel<L: Ledger>(
    code: &Code,
    sight: &Sight,
    instr: &Instr,
    at: usize,
    operands: &mut Operands<'_>,
    memory: &mut Recoverable<L>,
    mails: &mut Mails,
    steps: &mut Steps<L>,
) -> Next
    requires kind { instruction_kind instr.now ≡ Channels }
    requires at { at + 1 < 2 ^ 32 }
    requires turn { IsTurnOf (plain code.now) sight.now }
    requires sized { AreSized (plain code.now) mails.old }
    requires ready { (pieces : List (List ℕ)) × (counters : List (Option Counts))
        × Ready (plain code.now) (see_of sight.now memory.old.levels) instr.now operands.old
        (mem memory.old pieces counters mails.old) }
    requires cursor { CursorRises (plain code.now) (see_of sight.now memory.old.levels) memory.old.words instr.now }
    ensures moved { (pieces : List (List ℕ)) (counters : List (Option Counts))
        → outcome_of result at operands.new (mem memory.new pieces counters mails.new)
        ≡ acted (plain code.now) (see_of sight.now memory.old.levels) instr.now at operands.old (mem memory.old pieces counters mails.old) }
    ensures kept { Keeps result memory.old memory.new mails.old mails.new }
    ensures sized { map length mails.new ≡ map length mails.old }
    ensures work { steps.new ≤ steps.old + 3 * named instr.now }
{
    let process = sight.process;
    match *instr {
        Instr::Put(channel) => put_value(
            code, process, channel, at, operands, memory, mails, steps,
        ),
        Instr::Take(channel) => {
            let message = sight.message;
            take_message(code, process, message, channel, at, operands, memory, steps)
        }
        Instr::Absent(_, to) => match sight.message {
            None => Next::Go(to as usize),
            Some(_) => Next::Go(at + 1),
        },
        _ => unreachable!(),
    }
}

/// An instruction on a counter.
#[inline(always)]
pub fn act_on_counters(
    instr: &Instr,
    at: usize,
    operands: &mut Operands<'_>,
    counters: &mut Counters,
) -> Next
    requires kind { instruction_kind instr.now ≡ OnCounters }
    requires at { at + 1 < 2 ^ 32 }
    requires ready { (c : Plain) × (see : Seen) × (m : Workspace)
        × Ready c see instr.now operands.old (record m { counters = counters.old }) }
    ensures moved { (c : Plain) (see : Seen) (m : Workspace)
        → outcome_of result at operands.new (record m { counters = counters.new })
        ≡ acted c see instr.now at operands.old (record m { counters = counters.old }) }
{
    match *instr {
        Instr::Range(k, past) => range(k, past, at, operands, counters),
        Instr::Again(k, first) => again(k, first, at, counters),
        Instr::Counter(k) => counter(k, at, operands, counters),
        _ => unreachable!(),
    }
}
