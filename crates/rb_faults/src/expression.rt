//! The sites of an expression.

ghost use Rattle.std.specs.Prelude.{◌≡◌, [], ◌∷◌, IfOk, OnOk};
ghost use Rattle.std.specs.List.{flat_map};
ghost use Rattle.rb_syntax.specs.Plain.{expression as plain, reference, links_of};
ghost use Rattle.rb_scope.specs.Sites.{Declares, expression_sites, reference_sites, links_sites};
ghost use Rattle.rb_faults.specs.Finding.{visit, visited};
ghost use Rattle.rb_scope.specs.Memory.{held};
ghost use Rattle.rb_faults.specs.Memory.{quantified_sites, spot_of};

use crate::finder::Finder;
use crate::rules::sum;
use crate::sites::{looks_back, quantifies, uses};
use crate::spot::Spot;
use crate::variables::scope_of;
use rb_base::Memory;
use rb_scope::{Declared, Scope, Scopes, Slot, Want};
use rb_syntax::{Expr, Link, Quantified, Target};
use std::alloc::Global;

/// Visits the sites of an expression.
#[cycle(expression)]
#[tactic(auto, using(rb_syntax::proofs::Bridge::trees, crate::proofs::Visited::visited_append))]
pub(crate) fn visit_expression<'a>(
    alloc: Global,
    expression: &Expr<'a>,
    spot: &Spot<'_, 'a>,
    finder: &mut Finder,
) -> Result<(), Memory>
    ensures { OnOk result (finder.new ≡ visited finder.old (expression_sites (spot_of spot.now) (plain expression.now))) }
{
    match expression {
        Expr::Number(_) => Ok(()),
        Expr::Value(target) => visit_reference(alloc, target, Want::AValue, spot, finder),
        Expr::Prior(place, target) => {
            looks_back(finder, *place, spot.in_test)?;
            visit_reference(alloc, target, Want::AScalar, spot, finder)
        }
        Expr::Neg(operand) => visit_expression(alloc, operand, spot, finder),
        Expr::Not(operand) => visit_expression(alloc, operand, spot, finder),
        Expr::Chain(first, links) => {
            visit_expression(alloc, first, spot, finder)?;
            visit_links(alloc, links, spot, finder)
        }
        Expr::Quantified(quantified) => visit_quantified(alloc, quantified, spot, finder),
    }
}

/// Visits the sites of a place, which is wanted so where it has no index.
#[cycle(expression)]
#[tactic(auto, using(rb_syntax::proofs::Bridge::trees, crate::proofs::Visited::visited_append))]
pub(crate) fn visit_reference<'a>(
    alloc: Global,
    target: &Target<'a>,
    want: Want,
    spot: &Spot<'_, 'a>,
    finder: &mut Finder,
) -> Result<(), Memory>
    ensures { OnOk result (finder.new ≡ visited finder.old (reference_sites (spot_of spot.now) want (reference target.now))) }
{
    match &target.index {
        None => uses(finder, want, target.name, spot.scopes)?,
        Some(index) => {
            uses(finder, Want::AnArray, target.name, spot.scopes)?;
            visit_expression(alloc, index, spot, finder)?;
        }
    }
    Ok(())
}

/// Visits the sites of right operands.
#[cycle(expression)]
#[tactic(auto, using(rb_syntax::proofs::Bridge::trees, crate::proofs::Visited::visited_append))]
fn visit_links<'a>(
    alloc: Global,
    links: &[Link<'a>],
    spot: &Spot<'_, 'a>,
    finder: &mut Finder,
) -> Result<(), Memory>
    ensures { OnOk result (finder.new ≡ visited finder.old (links_sites (spot_of spot.now) (links_of links.now))) }
{
    for link in links {
        visit_expression(alloc, &link.right, spot, finder)?;
    }
    Ok(())
}

/// The scope of one declaration, which is visited.
fn counter_scope<'a>(
    alloc: Global,
    one: Declared<'a>,
    finder: &mut Finder,
) -> Result<Scope<'a>, Memory>
    ensures scope { IfOk result (λ scope. scope ≡ held one.entry ∷ []) }
    ensures found { OnOk result (finder.new ≡ visit finder.old (Declares [] (held one.entry))) }
{
    let mut declared = Vec::new(alloc);
    declared.push(one)?;
    scope_of(alloc, declared, finder)
}

/// Visits the sites of a quantified expression.
#[cycle(expression)]
#[tactic(auto, using(rb_syntax::proofs::Bridge::trees, crate::proofs::Visited::visited_append))]
fn visit_quantified<'a>(
    alloc: Global,
    over: &Quantified<'a>,
    spot: &Spot<'_, 'a>,
    finder: &mut Finder,
) -> Result<(), Memory>
    ensures { OnOk result (finder.new ≡ visited finder.old (quantified_sites (spot_of spot.now) over.now)) }
{
    let one = Declared {
        name: over.name,
        slot: Slot::Counter(spot.quantified),
        parameters: 0,
    };
    let quantified = sum(spot.quantified, 1)?;
    quantifies(finder, spot.quantified, over.place)?;
    let scope = counter_scope(alloc, one, finder)?;
    let limits = Spot {
        scopes: spot.scopes,
        taken: spot.taken,
        quantified,
        in_test: spot.in_test,
    };
    visit_expression(alloc, &over.low, &limits, finder)?;
    visit_expression(alloc, &over.high, &limits, finder)?;
    let scopes = Scopes::Within(&scope, spot.scopes);
    let body = Spot {
        scopes: &scopes,
        taken: limits.taken,
        quantified: limits.quantified,
        in_test: limits.in_test,
    };
    visit_expression(alloc, &over.body, &body, finder)
}
