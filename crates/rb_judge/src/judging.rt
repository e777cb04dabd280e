//! The whole verdict on a source.

ghost use Rattle.std.specs.Prelude.{◌≤◌, length, IfOk, IfErr};
ghost use Rattle.rb_judge.specs.Judged.{IsJudged, IsRefusal};

use rb_base::{MOST_BYTES, Names, Nested, Refusal};
use rb_nesting::nest;
use rb_parse::parse;
use rb_resolve::{names, resolve};
use rb_scope::Checked;
use std::alloc::Global;

/// An accepted source: its tree with what each name stands for, its conversations, and the names that lines and schedules
/// speak of.
#[derive(Drop)]
pub struct Judged<'a> {
    pub checked: Checked<'a>,
    pub nested: Nested,
    pub names: Names,
}

/// Judges a source: it is accepted, or refused for its first fault. The faults of tokens and grammar, X1 to X5, Y1 and Y2, come
/// first, in the order in which the tokens are read; then that of scopes and limits, S1 to S11, with the least place and then the
/// least number; then that of nesting, N1 to N13, in the same way. After a refusal nothing is kept.
#[tactic(auto, using(crate::proofs::OwnNumbers::parsed_have_own_numbers, crate::proofs::Stages::refused_in_scopes, crate::proofs::Stages::refused_in_nesting))]
pub fn judge<'a>(alloc: Global, source: &'a [u8]) -> Result<Judged<'a>, Refusal>
    requires { length source.now ≤ MOST_BYTES }
    ensures judged { IfOk result (λ judged. IsJudged source.now judged) }
    ensures refused { IfErr result (IsRefusal source.now) }
{
    let program = parse(alloc, source)?;
    let checked = resolve(alloc, program)?;
    let nested = nest(alloc, &checked)?;
    match names(alloc, &checked) {
        Ok(names) => Ok(Judged {
            checked,
            nested,
            names,
        }),
        Err(_) => Err(Refusal::Memory),
    }
}
