//! Operators and the words of quantified expressions, as they stand first.
ghost use Rattle.std.specs.Prelude.{◌≡◌};
ghost use Rattle.rb_grammar.specs.Finding.{FindsOperator, FindsQuantifier};
ghost use Rattle.rb_grammar.specs.Operators.{operator, comparison, quantifier};

use crate::level::Level;
use crate::terminal::Terminal;
use rb_syntax::{Op, Quantifier};

/// An operator, and the token that it is.
#[derive(Clone, Copy)]
pub struct Operator {
    pub terminal: Terminal,
    pub op: Op,
}

/// The word of a quantified expression, and the token that it is.
#[derive(Clone, Copy)]
pub struct Word {
    pub terminal: Terminal,
    pub kind: Quantifier,
}

/// The operator of a level that stands first, if one does.
pub fn find_operator(first: Option<Terminal>, level: Level) -> Option<Operator>
    ensures { FindsOperator (operator first level) first result }
{
    let terminal = first?;
    let op = match (terminal, level) {
        (Terminal::Or, Level::Disjunction) => Op::Or,
        (Terminal::And, Level::Conjunction) => Op::And,
        (Terminal::Plus, Level::Sum) => Op::Add,
        (Terminal::Minus, Level::Sum) => Op::Sub,
        (Terminal::Star, Level::Product) => Op::Mul,
        (Terminal::Slash, Level::Product) => Op::Div,
        (Terminal::Percent, Level::Product) => Op::Rem,
        _ => return None,
    };
    Some(Operator { terminal, op })
}

/// The comparison that stands first, if one does.
pub fn find_comparison(first: Option<Terminal>) -> Option<Operator>
    ensures { FindsOperator (comparison first) first result }
{
    let terminal = first?;
    let op = match terminal {
        Terminal::Equal => Op::Eq,
        Terminal::Unequal => Op::Ne,
        Terminal::Less => Op::Lt,
        Terminal::LessEqual => Op::Le,
        Terminal::Greater => Op::Gt,
        Terminal::GreaterEqual => Op::Ge,
        _ => return None,
    };
    Some(Operator { terminal, op })
}

/// The word of a quantified expression that stands first, if one does.
pub fn find_quantifier(first: Option<Terminal>) -> Option<Word>
    ensures { FindsQuantifier (quantifier first) first result }
{
    let terminal = first?;
    let kind = match terminal {
        Terminal::Every => Quantifier::Every,
        Terminal::Some => Quantifier::Any,
        Terminal::Sum => Quantifier::Total,
        _ => return None,
    };
    Some(Word { terminal, kind })
}
