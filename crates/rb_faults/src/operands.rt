//! The sites of statements, or of parts of them, in which no other statement stands.

ghost use Rattle.std.specs.Prelude.{◌≡◌, ◌∷◌, ◌++◌, map, OnOk};
ghost use Rattle.std.specs.List.{flat_map};
ghost use Rattle.rb_syntax.specs.Plain.{expression as plain, identifier, print_item, printed, reference};
ghost use Rattle.rb_syntax.specs.Tree.{Assignment, Invocation, Printing, Sending};
ghost use Rattle.rb_scope.specs.Sites.{Uses, command_sites, expression_sites, printed_sites, reference_sites};
ghost use Rattle.rb_faults.specs.Finding.{visited};
ghost use Rattle.rb_faults.specs.Memory.{spot_of};

use crate::expression::{visit_expression, visit_reference};
use crate::finder::Finder;
use crate::lists::count_items;
use crate::sites::{calls, uses};
use crate::spot::Spot;
use rb_base::Memory;
use rb_scope::Want;
use rb_syntax::{Expr, Item, ItemKind, Name, Target};
use std::alloc::Global;

/// Visits the sites of the arguments of a call.
fn visit_arguments<'a>(
    alloc: Global,
    arguments: &[Expr<'a>],
    spot: &Spot<'_, 'a>,
    finder: &mut Finder,
) -> Result<(), Memory>
    ensures { OnOk result (finder.new ≡ visited finder.old (flat_map (expression_sites (spot_of spot.now)) (map plain arguments.now))) }
{
    for argument in arguments {
        visit_expression(alloc, argument, spot, finder)?;
    }
    Ok(())
}

fn visit_printed<'a>(
    alloc: Global,
    what: &ItemKind<'a>,
    spot: &Spot<'_, 'a>,
    finder: &mut Finder,
) -> Result<(), Memory>
    ensures { OnOk result (finder.new ≡ visited finder.old (printed_sites (spot_of spot.now) (printed what.now))) }
{
    match what {
        ItemKind::Text(_) => Ok(()),
        ItemKind::Value(value) => visit_expression(alloc, value, spot, finder),
    }
}

/// Visits the sites of what a `print` prints.
fn visit_items<'a>(
    alloc: Global,
    items: &[Item<'a>],
    spot: &Spot<'_, 'a>,
    finder: &mut Finder,
) -> Result<(), Memory>
    ensures { OnOk result
        (finder.new ≡ visited finder.old (flat_map (λ item. printed_sites (spot_of spot.now) item.what) (map print_item items.now))) }
{
    for item in items {
        visit_printed(alloc, &item.what, spot, finder)?;
    }
    Ok(())
}

/// Visits the sites of an assignment.
#[tactic(auto, using(crate::proofs::Visited::walks))]
pub(crate) fn visit_assignment<'a>(
    alloc: Global,
    target: &Target<'a>,
    value: &Expr<'a>,
    spot: &Spot<'_, 'a>,
    finder: &mut Finder,
) -> Result<(), Memory>
    ensures { OnOk result (finder.new ≡ visited finder.old (command_sites (spot_of spot.now) (Assignment (reference target.now) (plain value.now)))) }
{
    visit_reference(alloc, target, Want::AScalar, spot, finder)?;
    visit_expression(alloc, value, spot, finder)
}

/// Visits the sites of a `print`.
#[tactic(auto, using(crate::proofs::Visited::walks))]
pub(crate) fn visit_printing<'a>(
    alloc: Global,
    items: &[Item<'a>],
    spot: &Spot<'_, 'a>,
    finder: &mut Finder,
) -> Result<(), Memory>
    ensures { OnOk result (finder.new ≡ visited finder.old (command_sites (spot_of spot.now) (Printing (map print_item items.now)))) }
{
    count_items(items, finder)?;
    visit_items(alloc, items, spot, finder)
}

/// Visits the sites of a `send`.
#[tactic(auto, using(crate::proofs::Visited::walks))]
pub(crate) fn visit_sending<'a>(
    alloc: Global,
    channel: Name<'a>,
    value: &Expr<'a>,
    spot: &Spot<'_, 'a>,
    finder: &mut Finder,
) -> Result<(), Memory>
    ensures { OnOk result
        (finder.new ≡ visited finder.old (command_sites (spot_of spot.now) (Sending (identifier channel.entry) (plain value.now)))) }
{
    uses(finder, Want::AChannel, channel, spot.scopes)?;
    visit_expression(alloc, value, spot, finder)
}

/// Visits the channel of a receipt, and the place in which it stores.
#[tactic(auto, using(crate::proofs::Visited::walks))]
pub(crate) fn visit_receipt<'a>(
    alloc: Global,
    channel: Name<'a>,
    target: &Target<'a>,
    spot: &Spot<'_, 'a>,
    finder: &mut Finder,
) -> Result<(), Memory>
    ensures { OnOk result
        (finder.new ≡ visited finder.old
        (Uses Want.AChannel (identifier channel.entry) (spot_of spot.now).scopes
        ∷ reference_sites (spot_of spot.now) Want.AScalar (reference target.now))) }
{
    uses(finder, Want::AChannel, channel, spot.scopes)?;
    visit_reference(alloc, target, Want::AScalar, spot, finder)
}

/// Visits the sites of a call.
#[tactic(auto, using(crate::proofs::Visited::walks))]
pub(crate) fn visit_call<'a>(
    alloc: Global,
    procedure: Name<'a>,
    arguments: &[Expr<'a>],
    spot: &Spot<'_, 'a>,
    finder: &mut Finder,
) -> Result<(), Memory>
    ensures { OnOk result
        (finder.new
        ≡ visited finder.old (command_sites (spot_of spot.now) (Invocation (identifier procedure.entry) (map plain arguments.now)))) }
{
    uses(finder, Want::AProcedure, procedure, spot.scopes)?;
    calls(finder, procedure, arguments.len(), spot.scopes)?;
    visit_arguments(alloc, arguments, spot, finder)
}
