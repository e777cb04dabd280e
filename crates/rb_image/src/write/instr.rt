//! Instructions: a byte, and operands.

ghost use Rattle.std.specs.Prelude.{◌≡◌, ℕ, ◌<◌, ◌^◌, List, [], ◌∷◌, ◌++◌, OnOk};
ghost use Rattle.rb_outside.specs.Puts.{Puts};
ghost use Rattle.rb_code.specs.declared.instr.Instr.{Instr as PlainInstr};
ghost use Rattle.rb_image.specs.Instrs.{code, instr as bytes_of};
ghost use Rattle.rb_image.specs.Pieces.{natural, number, spot as spot_bytes};
ghost use Rattle.rb_image.specs.Ranges.{IsInstr, IsSpot};
ghost use Rattle.rb_image.specs.WriteInstrs.{operands_in};

use crate::write::list::Spelled;
use crate::write::number::put_natural;
use rb_code::{Instr, Spot};
use rb_outside::{Failed, Sink};
use rb_trace::line::put;

/// The operands of an instruction: none, a number with a sign, a word of the process, or so many numbers.
enum Operands {
    Nothing,
    Integer(i64),
    Word(Spot),
    One(u32),
    Two(u32, u32),
    Three(u32, u32, u32),
}

impl Spelled for Instr {
    ghost Plain = { PlainInstr };

    ghost plain = { λ one. one };

    ghost bytes = { bytes_of };

    ghost Ranges = { IsInstr };

    fn put<S: Sink>(&self, out: &mut S) -> Result<(), Failed> {
        put_instr(out, self)
    }
}

/// Writes an instruction.
pub(crate) fn put_instr<S: Sink>(out: &mut S, instr: &Instr) -> Result<(), Failed>
    ensures text { Puts (bytes_of instr.now) (S.written out.old) (S.written out.new) (S.faults out.old) (S.faults out.new) result }
    ensures ranges { OnOk result (IsInstr instr.now) }
{
    let number = number_of(*instr);
    match operands_in(*instr) {
        Operands::Nothing => put(out, &[number]),
        Operands::Integer(n) => put_push(out, n),
        Operands::Word(word) => put_spot(out, number, word),
        Operands::One(n) => put_one(out, number, n),
        Operands::Two(m, n) => put_two(out, number, m, n),
        Operands::Three(a, p, n) => put_call(out, a, p, n),
    }
}

/// The number of an instruction.
fn number_of(instr: Instr) -> u8
    ensures { result ≡ code instr }
{
    match instr {
        Instr::Turn => 0,
        Instr::Push(_) => 1,
        Instr::Load(_) => 2,
        Instr::Prior(_) => 3,
        Instr::Bound(_) => 4,
        Instr::LoadAt(_) => 5,
        Instr::PriorAt(_) => 6,
        Instr::Store(_) => 7,
        Instr::StoreAt(_) => 8,
        Instr::Add => 9,
        Instr::Sub => 10,
        Instr::Mul => 11,
        Instr::Div => 12,
        Instr::Rem => 13,
        Instr::Eq => 14,
        Instr::Ne => 15,
        Instr::Lt => 16,
        Instr::Le => 17,
        Instr::Gt => 18,
        Instr::Ge => 19,
        Instr::Neg => 20,
        Instr::Not => 21,
        Instr::Bool => 22,
        Instr::Jump(_) => 23,
        Instr::JumpZero(_) => 24,
        Instr::Frame(_) => 25,
        Instr::Drop(_) => 26,
        Instr::Text(_) => 27,
        Instr::Item => 28,
        Instr::Print => 29,
        Instr::Room(_) => 30,
        Instr::Put(_) => 31,
        Instr::There(_) => 32,
        Instr::Take(_) => 33,
        Instr::Call(_, _, _) => 34,
        Instr::Return => 35,
        Instr::Fail => 36,
        Instr::Enter(_) => 37,
        Instr::Start(_) => 38,
        Instr::Test(_) => 39,
        Instr::Done => 40,
        Instr::Range(_, _) => 41,
        Instr::Again(_, _) => 42,
        Instr::Counter(_) => 43,
        Instr::Absent(_, _) => 44,
    }
}

/// The operands of an instruction.
fn operands_in(instr: Instr) -> Operands
    ensures { result ≡ operands_in instr }
{
    match instr {
        Instr::Push(n) => Operands::Integer(n),
        Instr::Load(word) => Operands::Word(word),
        Instr::Prior(word) => Operands::Word(word),
        Instr::Bound(n) => Operands::One(n),
        Instr::LoadAt(word) => Operands::Word(word),
        Instr::PriorAt(word) => Operands::Word(word),
        Instr::Store(word) => Operands::Word(word),
        Instr::StoreAt(word) => Operands::Word(word),
        Instr::Jump(n) => Operands::One(n),
        Instr::JumpZero(n) => Operands::One(n),
        Instr::Frame(n) => Operands::One(n),
        Instr::Drop(n) => Operands::One(n),
        Instr::Text(n) => Operands::One(n),
        Instr::Room(n) => Operands::One(n),
        Instr::Put(n) => Operands::One(n),
        Instr::There(n) => Operands::One(n),
        Instr::Take(n) => Operands::One(n),
        Instr::Call(a, p, n) => Operands::Three(a, p, n),
        Instr::Enter(n) => Operands::One(n),
        Instr::Start(n) => Operands::One(n),
        Instr::Test(n) => Operands::One(n),
        Instr::Range(m, n) => Operands::Two(m, n),
        Instr::Again(m, n) => Operands::Two(m, n),
        Instr::Counter(n) => Operands::One(n),
        Instr::Absent(m, n) => Operands::Two(m, n),
        _ => Operands::Nothing,
    }
}

#[tactic(auto, unfolding(crate::specs::Pieces::number))]
fn put_push<S: Sink>(out: &mut S, n: i64) -> Result<(), Failed>
    ensures { Puts (1 ∷ number n) (S.written out.old) (S.written out.new) (S.faults out.old) (S.faults out.new) result }
{
    put(out, &coded(1, n.cast_unsigned()))
}

fn put_one<S: Sink>(out: &mut S, code: u8, n: u32) -> Result<(), Failed>
    ensures { Puts (code ∷ natural n) (S.written out.old) (S.written out.new) (S.faults out.old) (S.faults out.new) result }
{
    put(out, &coded(code, n as u64))
}

fn put_two<S: Sink>(out: &mut S, code: u8, m: u32, n: u32) -> Result<(), Failed>
    ensures { Puts (code ∷ (natural m ++ natural n)) (S.written out.old) (S.written out.new) (S.faults out.old) (S.faults out.new) result }
{
    put_one(out, code, m)?;
    put_natural(out, n)
}

fn put_spot<S: Sink>(out: &mut S, code: u8, word: Spot) -> Result<(), Failed>
    ensures text { Puts (code ∷ spot_bytes word) (S.written out.old) (S.written out.new) (S.faults out.old) (S.faults out.new) result }
    ensures ranges { IsSpot word }
{
    match word {
        Spot::Global(k) => put_two(out, code, 0, k),
        Spot::Local(k) => put_two(out, code, 1, k),
    }
}

fn put_call<S: Sink>(out: &mut S, a: u32, p: u32, n: u32) -> Result<(), Failed>
    ensures { Puts (34 ∷ (natural a ++ (natural p ++ natural n))) (S.written out.old) (S.written out.new) (S.faults out.old)
        (S.faults out.new) result }
{
    put_two(out, 34, a, p)?;
    put_natural(out, n)
}

// A byte, and a number behind it.
#[tactic(auto, unfolding(crate::specs::Pieces::number))]
fn coded(code: u8, n: u64) -> [u8; 9]
    ensures { result ≡ code ∷ natural n }
{
    let [a, b, c, d, e, f, g, h] = n.to_be_bytes();
    [code, a, b, c, d, e, f, g, h]
}
