//! One instruction.

ghost use Rattle.std.specs.Prelude.{◌≡◌, ℕ, ◌+◌, ◌*◌, ◌<◌, ◌≤◌, ◌^◌, ℤ, List, [], length, map, slice_get};
ghost use Rattle.rb_world.specs.World.{copy_of, last_of};
ghost use Rattle.rb_code.specs.Instructions.Plain.{code as plain};
ghost use Rattle.rb_code.specs.WordMachine.Workspace.{Workspace};
ghost use Rattle.rb_code.specs.WordMachine.Act.{Going, act as acted, alternate_address, if_there};
ghost use Rattle.rb_code.specs.SoundCode.Safe.{IsThere, Ready};
ghost use Rattle.rb_code.specs.SoundCode.Stays.{entry_calls};
ghost use Rattle.rb_proc.specs.Acts.{CursorRises, LeavesEnough, cause_by};
ghost use Rattle.rb_operands.specs.Outcomes.{outcome_of};
ghost use Rattle.rb_proc.specs.Outcomes.{Keeps, whole};
ghost use Rattle.rb_operands.specs.Pieces.{AreTexts};
ghost use Rattle.rb_proc.specs.Sees.{AreSized, IsTurnOf, see_of};
ghost use Rattle.rb_proc.specs.Work.{named};

use crate::kinds::{act_on_channel, act_on_counters, act_on_frames, act_on_line, act_on_numbers};
use crate::sight::Sight;
use crate::wants::alternate_of;
use crate::words::{load, load_at, prior, prior_at, store, store_at};
use rb_base::{Cause, Steps};
use rb_code::{Code, Instr};
use rb_mail::Mails;
use rb_operands::calculate::{bound, compare, jump_zero, operate, push, test};
use rb_operands::operands::Operands;
use rb_operands::{Bench, Next};
use rb_recoverable::recoverable::Recoverable;
use rb_syntax::Op;
use std::sync::ledger::Ledger;

/// Goes to an alternate of a recovery block, counted from 1.
#[inline(always)]
fn start(code: &Code, block: u32, alternate: u32) -> Next
    requires { IsThere (alternate_address (slice_get (plain code.now).blocks block) alternate) }
    ensures { (a : ℕ) (operands : List ℤ) (m : Workspace)
        → outcome_of result a operands m
        ≡ if_there (alternate_address (slice_get (plain code.now).blocks block) alternate) (λ to. Going to operands m) }
{
    let one = &code.blocks[block as usize];
    Next::Go(one.alternates[alternate as usize - 1] as usize)
}

// The cause of a trap by an instruction alone. It is looked up, since a constant for it would be loaded before each instruction.
#[cold]
#[inline(never)]
fn cause_of(instr: &Instr) -> Cause
    ensures { result ≡ cause_by instr.now }
{
    match *instr {
        Instr::Test(_) => Cause::Test,
        _ => Cause::Fail,
    }
}

/// Carries one instruction out. At most three ticks for each word that it names.
#[inline(always)]
pub fn act<L: Ledger>(
    code: &Code,
    sight: &Sight,
    instr: &Instr,
    at: usize,
    operands: &mut Operands<'_>,
    bench: &mut Bench,
    memory: &mut Recoverable<L>,
    mails: &mut Mails,
    steps: &mut Steps<L>,
) -> Next
    requires at { at + 1 < 2 ^ 32 }
    requires texts { AreTexts (plain code.now).texts }
    requires turn { IsTurnOf (plain code.now) sight.now }
    requires none_waits { memory.old.waiting ≡ [] }
    requires sized { AreSized (plain code.now) mails.old }
    requires ready { Ready (plain code.now) (see_of sight.now memory.old.levels) instr.now operands.old
        (whole (plain code.now).texts bench.old memory.old mails.old) }
    requires cursor { CursorRises (plain code.now) (see_of sight.now memory.old.levels) memory.old.words instr.now }
    requires stays { LeavesEnough (entry_calls (copy_of (last_of memory.old.levels)))
        (acted (plain code.now) (see_of sight.now memory.old.levels) instr.now at operands.old
        (whole (plain code.now).texts bench.old memory.old mails.old)) }
    ensures moved { outcome_of result at operands.new (whole (plain code.now).texts bench.new memory.new mails.new)
        ≡ acted (plain code.now) (see_of sight.now memory.old.levels) instr.now at operands.old
        (whole (plain code.now).texts bench.old memory.old mails.old) }
    ensures kept { Keeps result memory.old memory.new mails.old mails.new }
    ensures sized { map length mails.new ≡ map length mails.old }
    ensures work { steps.new ≤ steps.old + 3 * named instr.now }
{
    match *instr {
        Instr::Turn | Instr::Done => Next::Stop,
        Instr::Push(n) => push(n, at, operands),
        Instr::Load(spot) => load(sight.place(code, memory, spot), at, operands, memory, steps),
        Instr::Store(spot) => store(sight.place(code, memory, spot), at, operands, memory, steps),
        Instr::LoadAt(spot) => load_at(
            sight.place(code, memory, spot),
            at,
            operands,
            memory,
            steps,
        ),
        Instr::StoreAt(spot) => store_at(
            sight.place(code, memory, spot),
            at,
            operands,
            memory,
            steps,
        ),
        Instr::Prior(spot) => prior(sight.place(code, memory, spot), at, operands, memory, steps),
        Instr::PriorAt(spot) => prior_at(
            sight.place(code, memory, spot),
            at,
            operands,
            memory,
            steps,
        ),
        Instr::Bound(n) => bound(n, at, operands),
        Instr::Add => operate(Op::Add, at, operands),
        Instr::Sub => operate(Op::Sub, at, operands),
        Instr::Eq => compare(Op::Eq, operands),
        Instr::Ne => compare(Op::Ne, operands),
        Instr::Lt => compare(Op::Lt, operands),
        Instr::Le => compare(Op::Le, operands),
        Instr::Gt => compare(Op::Gt, operands),
        Instr::Ge => compare(Op::Ge, operands),
        Instr::Jump(to) => Next::Go(to as usize),
        Instr::JumpZero(to) => jump_zero(to, at, operands),
        Instr::Room(_) | Instr::There(_) => Next::Go(at + 1),
        Instr::Start(block) => start(code, block, alternate_of(sight.wanted, memory)),
        Instr::Test(_) => test(at, operands),
        Instr::Fail | Instr::Enter(_) => Next::Trap(cause_of(instr)),
        Instr::Mul | Instr::Div | Instr::Rem | Instr::Neg | Instr::Not | Instr::Bool => {
            act_on_numbers(instr, at, operands)
        }
        Instr::Frame(_) | Instr::Drop(_) | Instr::Call(..) | Instr::Return => {
            act_on_frames(code, sight, instr, at, operands, memory, steps)
        }
        Instr::Text(_) | Instr::Item | Instr::Print => {
            act_on_line(code, instr, at, operands, bench, memory, steps)
        }
        Instr::Put(_) | Instr::Take(_) | Instr::Absent(..) => {
            act_on_channel(code, sight, instr, at, operands, memory, mails, steps)
        }
        Instr::Range(..) | Instr::Again(..) | Instr::Counter(_) => {
            act_on_counters(instr, at, operands, &mut bench.counters)
        }
    }
}
