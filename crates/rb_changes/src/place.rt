//! The place of a statement.

ghost use Rattle.std.specs.Prelude.{◌≡◌, map};
ghost use Rattle.rb_syntax.specs.Plain.{command, expression, print_item};
ghost use Rattle.rb_code.specs.Agreement.Places.{command_place, expression_place, items_place};

use rb_base::Place;
use rb_syntax::{Expr, Item, Statement};

/// The place of the first name, number or word of an expression.
#[cycle(expression)]
#[tactic(auto, using(rb_syntax::proofs::Bridge::trees))]
pub fn place_in(operand: &Expr<'_>) -> Place
    ensures { result ≡ expression_place (expression operand.now) }
{
    match operand {
        Expr::Number(number) => number.place,
        Expr::Value(target) => target.name.place,
        Expr::Prior(place, _) => *place,
        Expr::Neg(inner) => place_in(inner),
        Expr::Not(inner) => place_in(inner),
        Expr::Chain(first, _) => place_in(first),
        Expr::Quantified(quantified) => quantified.place,
    }
}

/// The place of the first item of a `print`, if it has one.
#[tactic(auto, using(crate::proofs::InTurn::first_place))]
fn first_item(items: &[Item<'_>]) -> Option<Place>
    ensures { result ≡ items_place (map print_item items.now) }
{
    match items.get(0) {
        Some(item) => Some(item.place),
        None => None,
    }
}

/// The place of a statement, if it has one.
#[tactic(auto, using(rb_syntax::proofs::Bridge::trees))]
pub fn place_of(statement: &Statement<'_>) -> Option<Place>
    ensures { result ≡ command_place (command statement.now) }
{
    match statement {
        Statement::Assign(target, _) => Some(target.name.place),
        Statement::Print(items) => first_item(items),
        Statement::Send(channel, _) => Some(channel.place),
        Statement::Receive(channel, _, _) => Some(channel.place),
        Statement::If(test, _, _) => Some(place_in(test)),
        Statement::While(test, _) => Some(place_in(test)),
        Statement::Call(procedure, _) => Some(procedure.place),
        Statement::Fail => None,
        Statement::Recover(recovery) => Some(recovery.place),
    }
}
