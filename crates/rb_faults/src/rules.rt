//! The tests that the rules of scopes and limits make.

ghost use Rattle.std.specs.Prelude.{◌≡◌, ◌+◌, ◌≤◌, IfOk, map};
ghost use Rattle.rb_meaning.specs.Environment.{natural};
ghost use Rattle.rb_syntax.specs.Plain.{declaration};
ghost use Rattle.rb_scope.specs.Scopes.{is_array_size, words_of, words_in, elements};
ghost use Rattle.rb_scope.specs.Rules.{fits, fits_size, is_outside};

use rb_base::{MOST_ELEMENTS, Memory};
use rb_scope::{Slot, Want};
use rb_syntax::{Number, Var};

/// Whether an array may have this size.
pub(crate) fn is_array_size(size: Number) -> bool
    ensures { result ≡ is_array_size (natural size.value) }
{
    size.value >= 1 && size.value <= i64::from(MOST_ELEMENTS)
}

/// Whether a number is not from 1 to a greatest.
pub(crate) fn is_outside(most: u32, number: Number) -> bool
    ensures { result ≡ is_outside most number }
{
    number.value < 1 || number.value > i64::from(most)
}

/// How many words a variable of this size takes.
pub(crate) fn words_of(size: Option<Number>) -> u32
    ensures words { result ≡ words_of size }
    ensures few { result ≤ MOST_ELEMENTS }
{
    match size {
        None => 1,
        Some(number) if is_array_size(number) => number.value as u32,
        Some(_) => 0,
    }
}

/// The number of elements of an array.
pub(crate) fn elements(size: Option<Number>) -> Option<u32>
    ensures { result ≡ elements size }
{
    match size {
        None => None,
        Some(_) => Some(words_of(size)),
    }
}

/// One number and another, as long as there is room to count so far.
pub(crate) fn sum(first: u32, second: u32) -> Result<u32, Memory>
    ensures { IfOk result (λ total. total ≡ first + second) }
{
    first.checked_add(second).ok_or(Memory)
}

/// A number of entries, as long as there is room to count so far.
pub(crate) fn count(entries: usize) -> Result<u32, Memory>
    ensures { IfOk result (λ total. total ≡ entries) }
{
    u32::try_from(entries).ok().ok_or(Memory)
}

/// How many words these variables take.
pub(crate) fn words_in(variables: &[Var<'_>]) -> Result<u32, Memory>
    ensures { IfOk result (λ total. total ≡ words_in (map declaration variables.now)) }
{
    let mut total = 0;
    let mut rest = variables;
    'variables: while let [variable, after @ ..] = rest {
        total = sum(total, words_of(variable.size))?;
        rest = after;
    }
    Ok(total)
}

/// Whether what a name stands for fits its use.
pub(crate) fn fits(want: Want, slot: Slot) -> bool
    ensures { result ≡ fits want slot }
{
    match slot {
        Slot::ProgramName => false,
        Slot::Process(_) => want == Want::AProcess,
        Slot::Channel(_) => want == Want::AChannel,
        Slot::Conversation(_) => want == Want::AConversation,
        Slot::Procedure(_) => want == Want::AProcedure,
        Slot::Counter(_) => want == Want::AValue,
        Slot::Global { size, .. } | Slot::Local { size, .. } => fits_size(want, size),
    }
}

fn fits_size(want: Want, size: Option<u32>) -> bool
    ensures { result ≡ fits_size want size }
{
    match want {
        Want::AScalar | Want::AValue => size.is_none(),
        Want::AnArray => size.is_some(),
        Want::AProcess | Want::AChannel | Want::AConversation | Want::AProcedure => false,
    }
}
