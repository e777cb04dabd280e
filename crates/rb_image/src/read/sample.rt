//! An instruction of each number, as a sample from which one that is read takes its kind.

ghost use Rattle.std.specs.Prelude.{◌≡◌, slice_get};
ghost use Rattle.rb_image.specs.ReadInstrs.{sample_at, taken_by, with_one, with_two, with_word};

use rb_code::{Instr, Spot};

const FIRST: Spot = Spot::Global(0);

/// An instruction of each number, in their order. What its operands are makes no difference.
static SAMPLES: [Instr; 45] = [
    Instr::Turn,
    Instr::Push(0),
    Instr::Load(FIRST),
    Instr::Prior(FIRST),
    Instr::Bound(0),
    Instr::LoadAt(FIRST),
    Instr::PriorAt(FIRST),
    Instr::Store(FIRST),
    Instr::StoreAt(FIRST),
    Instr::Add,
    Instr::Sub,
    Instr::Mul,
    Instr::Div,
    Instr::Rem,
    Instr::Eq,
    Instr::Ne,
    Instr::Lt,
    Instr::Le,
    Instr::Gt,
    Instr::Ge,
    Instr::Neg,
    Instr::Not,
    Instr::Bool,
    Instr::Jump(0),
    Instr::JumpZero(0),
    Instr::Frame(0),
    Instr::Drop(0),
    Instr::Text(0),
    Instr::Item,
    Instr::Print,
    Instr::Room(0),
    Instr::Put(0),
    Instr::There(0),
    Instr::Take(0),
    Instr::Call(0, 0, 0),
    Instr::Return,
    Instr::Fail,
    Instr::Enter(0),
    Instr::Start(0),
    Instr::Test(0),
    Instr::Done,
    Instr::Range(0, 0),
    Instr::Again(0, 0),
    Instr::Counter(0),
    Instr::Absent(0, 0),
];

/// What operands stand behind an instruction's number: none, a number with a sign, a word of the process, or so many numbers.
#[derive(Clone, Copy)]
pub(crate) enum Operands {
    Nothing,
    Integer,
    Word,
    One,
    Two,
    Three,
}

/// The sample of an instruction's number, if there is such an instruction.
#[tactic(auto, unfolding(crate::specs::ReadInstrs::sample_at))]
pub(crate) fn sample_of(number: u8) -> Option<Instr>
    ensures { result ≡ sample_at number }
{
    among(&SAMPLES, number as usize)
}

fn among(samples: &[Instr], at: usize) -> Option<Instr>
    ensures { result ≡ slice_get samples.now at }
{
    samples.get(at).copied()
}

/// The operands of instructions like this one.
pub(crate) fn operands_of(sample: Instr) -> Operands
    ensures { result ≡ taken_by sample }
{
    match sample {
        Instr::Push(_) => Operands::Integer,
        Instr::Load(_)
        | Instr::Prior(_)
        | Instr::LoadAt(_)
        | Instr::PriorAt(_)
        | Instr::Store(_)
        | Instr::StoreAt(_) => Operands::Word,
        Instr::Bound(_)
        | Instr::Jump(_)
        | Instr::JumpZero(_)
        | Instr::Frame(_)
        | Instr::Drop(_)
        | Instr::Text(_)
        | Instr::Room(_)
        | Instr::Put(_)
        | Instr::There(_)
        | Instr::Take(_)
        | Instr::Enter(_)
        | Instr::Start(_)
        | Instr::Test(_)
        | Instr::Counter(_) => Operands::One,
        Instr::Range(_, _) | Instr::Again(_, _) | Instr::Absent(_, _) => Operands::Two,
        Instr::Call(_, _, _) => Operands::Three,
        _ => Operands::Nothing,
    }
}

/// The sample with a word in place of its own.
pub(crate) fn put_word(sample: Instr, word: Spot) -> Instr
    ensures { result ≡ with_word sample word }
{
    match sample {
        Instr::Load(_) => Instr::Load(word),
        Instr::Prior(_) => Instr::Prior(word),
        Instr::LoadAt(_) => Instr::LoadAt(word),
        Instr::PriorAt(_) => Instr::PriorAt(word),
        Instr::Store(_) => Instr::Store(word),
        Instr::StoreAt(_) => Instr::StoreAt(word),
        other => other,
    }
}

/// The sample with a number in place of its own.
pub(crate) fn put_one(sample: Instr, number: u32) -> Instr
    ensures { result ≡ with_one sample number }
{
    match sample {
        Instr::Bound(_) => Instr::Bound(number),
        Instr::Jump(_) => Instr::Jump(number),
        Instr::JumpZero(_) => Instr::JumpZero(number),
        Instr::Frame(_) => Instr::Frame(number),
        Instr::Drop(_) => Instr::Drop(number),
        Instr::Text(_) => Instr::Text(number),
        Instr::Room(_) => Instr::Room(number),
        Instr::Put(_) => Instr::Put(number),
        Instr::There(_) => Instr::There(number),
        Instr::Take(_) => Instr::Take(number),
        Instr::Enter(_) => Instr::Enter(number),
        Instr::Start(_) => Instr::Start(number),
        Instr::Test(_) => Instr::Test(number),
        Instr::Counter(_) => Instr::Counter(number),
        other => other,
    }
}

/// The sample with two numbers in place of its own.
pub(crate) fn put_two(sample: Instr, first: u32, second: u32) -> Instr
    ensures { result ≡ with_two sample first second }
{
    match sample {
        Instr::Range(_, _) => Instr::Range(first, second),
        Instr::Again(_, _) => Instr::Again(first, second),
        Instr::Absent(_, _) => Instr::Absent(first, second),
        other => other,
    }
}
