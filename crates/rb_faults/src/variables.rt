//! Scopes that are made in memory, and the sizes and words of variables.

ghost use Rattle.std.specs.Prelude.{◌≡◌, ◌++◌, [], map, IfOk, OnOk};
ghost use Rattle.std.specs.List.{flat_map};
ghost use Rattle.rb_syntax.specs.Plain.{declaration};
ghost use Rattle.rb_scope.specs.Scopes.{variables_from};
ghost use Rattle.rb_scope.specs.Sites.{scope_sites, size_sites, words_sites};
ghost use Rattle.rb_faults.specs.Finding.{visited};
ghost use Rattle.rb_scope.specs.Memory.{all_held};

use crate::finder::Finder;
use crate::rows::{Kind, add_variables};
use crate::rules::{sum, words_of};
use crate::sites::{declares, sizes, takes};
use rb_base::Memory;
use rb_scope::{Declared, Scope, Slot};
use rb_syntax::{Number, Var};
use std::alloc::Global;

/// A scope of these declarations, each of which is visited behind those before it.
pub(crate) fn scope_of<'a>(
    alloc: Global,
    declared: Vec<Declared<'a>>,
    finder: &mut Finder,
) -> Result<Scope<'a>, Memory>
    ensures scope { IfOk result (λ scope. scope ≡ all_held declared.entry.items) }
    ensures found { OnOk result (finder.new ≡ visited finder.old (scope_sites [] (all_held declared.entry.items))) }
{
    let scope = Scope::new(alloc, declared)?;
    visit_scope(&scope, finder)?;
    Ok(scope)
}

/// Visits the declarations of a scope in order.
fn visit_scope(scope: &Scope<'_>, finder: &mut Finder) -> Result<(), Memory>
    ensures { OnOk result (finder.new ≡ visited finder.old (scope_sites [] scope.now)) }
{
    for place in 0..scope.len() {
        declares(finder, scope, place)?;
    }
    Ok(())
}

/// The scope of a block, whose variables begin at this word of the running call.
#[tactic(auto, using(crate::proofs::Visited::visited_append))]
pub(crate) fn block_scope<'a>(
    alloc: Global,
    variables: &[Var<'a>],
    first: u32,
    finder: &mut Finder,
) -> Result<Scope<'a>, Memory>
    ensures scope { IfOk result (λ scope. scope ≡ variables_from Slot.Local first (map declaration variables.now)) }
    ensures found { OnOk result
        (finder.new ≡ visited finder.old
        (scope_sites [] (variables_from Slot.Local first (map declaration variables.now))
        ++ flat_map (λ one. size_sites one.size) (map declaration variables.now))) }
{
    let mut declared = Vec::new(alloc);
    add_variables(&mut declared, Kind::OfCall, first, variables)?;
    let scope = scope_of(alloc, declared, finder)?;
    visit_sizes(variables, finder)?;
    Ok(scope)
}

fn visit_size(size: Option<Number>, finder: &mut Finder) -> Result<(), Memory>
    ensures { OnOk result (finder.new ≡ visited finder.old (size_sites size)) }
{
    if let Some(number) = size {
        sizes(finder, number)?;
    }
    Ok(())
}

/// Visits the sizes of arrays.
#[tactic(auto, using(crate::proofs::Visited::visited_append))]
pub(crate) fn visit_sizes(variables: &[Var<'_>], finder: &mut Finder) -> Result<(), Memory>
    ensures { OnOk result
        (finder.new ≡ visited finder.old (flat_map (λ one. size_sites one.size) (map declaration variables.now))) }
{
    let mut rest = variables;
    'variables: while let [variable, after @ ..] = rest {
        visit_size(variable.size, finder)?;
        rest = after;
    }
    Ok(())
}

/// Visits the words that the variables of a process take.
pub(crate) fn visit_words(
    most: u32,
    variables: &[Var<'_>],
    finder: &mut Finder,
) -> Result<(), Memory>
    ensures { OnOk result (finder.new ≡ visited finder.old (words_sites most 0 (map declaration variables.now))) }
{
    let mut before = 0;
    let mut rest = variables;
    'variables: while let [variable, others @ ..] = rest {
        let words = words_of(variable.size);
        let after = sum(before, words)?;
        takes(finder, most, before, after, words, variable.name.place)?;
        before = after;
        rest = others;
    }
    Ok(())
}
