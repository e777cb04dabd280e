//! The uses that join a conversation.

ghost use Rattle.std.specs.Prelude.{◌≡◌, None, reverse, unwrap_or, IfOk};
ghost use Rattle.std.specs.List.{list_any};
ghost use Rattle.rb_nest.specs.Answers.{first_answer};
ghost use Rattle.rb_uses.specs.Memory.{all_held, held};
ghost use Rattle.rb_uses.specs.Summary.{alternates_for, joins_among, joins_at, joins_like, within_for};

use crate::usage::{Deed, Use};
use rb_base::Memory;
use std::alloc::Global;

/// Those of several uses that join a conversation.
pub(crate) fn joins_among<'a>(alloc: Global, uses: &[Use<'a>]) -> Result<Vec<Use<'a>>, Memory>
    ensures { IfOk result (λ joins. all_held joins.items ≡ joins_among (all_held uses.now)) }
{
    let mut joins = Vec::new(alloc);
    let mut rest = uses;
    'uses: while let [one, after @ ..] = rest {
        if one.is_join() {
            joins.push(*one)?;
        }
        rest = after;
    }
    Ok(joins)
}

/// Whether a process joins the conversation of this name.
pub(crate) fn is_joined(joins: &[Use<'_>], process: usize, name: &[u8]) -> bool
    ensures { result ≡ list_any (joins_at process name.now) (all_held joins.now) }
{
    let mut rest = joins;
    'joins: while let [one, after @ ..] = rest {
        if one.joins_at(process, name) {
            return true;
        }
        rest = after;
    }
    false
}

/// Whether one of these joins the same conversation in the same process.
pub(crate) fn is_joined_before(joins: &[Use<'_>], one: &Use<'_>) -> bool
    ensures { result ≡ list_any (λ other. joins_like (held one.now) (held other)) (reverse joins.now) }
{
    // The last one of a process is found at once, however many there are.
    let mut rest = joins;
    'joins: while let [before @ .., other] = rest {
        if one.joins_like(other) {
            return true;
        }
        rest = before;
    }
    false
}

/// The innermost conversation around the first `converse` for the conversation of this name.
pub(crate) fn first_within(joins: &[Use<'_>], name: &[u8]) -> Option<usize>
    ensures { result ≡ unwrap_or (first_answer (within_for name.now) (all_held joins.now)) None }
{
    let mut rest = joins;
    'joins: while let [one, after @ ..] = rest {
        if one.is_join() && one.name.text == name {
            return one.within;
        }
        rest = after;
    }
    None
}

/// How many alternates the first `converse` for a conversation has.
pub(crate) fn first_alternates(joins: &[Use<'_>], number: usize) -> Option<usize>
    ensures { result ≡ first_answer (alternates_for number) (all_held joins.now) }
{
    let mut rest = joins;
    'converses: while let [one, after @ ..] = rest {
        match one.deed {
            Deed::Joins(alternates) if one.number == number => return Some(alternates),
            _ => {}
        }
        rest = after;
    }
    None
}
