//! Names, numbers, targets and expressions of the tree.

use rb_base::Place;

/// A name where it stands. `id` numbers all names of the text from 0 in order.
#[derive(Clone, Copy)]
pub struct Name<'a> {
    pub text: &'a [u8],
    pub place: Place,
    pub id: u32,
}

/// A number where it stands. It is not negative.
#[derive(Clone, Copy)]
pub struct Number {
    pub value: i64,
    pub place: Place,
}

/// A variable, or an element of an array.
#[cycle(expression)]
pub struct Target<'a> {
    pub name: Name<'a>,
    pub index: Option<Box<Expr<'a>>>,
}

impl Drop for Target<'_> {
    #[cycle(expression)]
    fn drop(self) {
        let Target { name: _, index: _ } = self;
    }
}

/// An expression. Parentheses leave no node of their own.
#[cycle(expression)]
pub enum Expr<'a> {
    Number(Number),
    Value(Target<'a>),
    /// The value just before the recovery block, with the place of the word `prior`.
    Prior(Place, Target<'a>),
    Neg(Box<Expr<'a>>),
    Not(Box<Expr<'a>>),
    /// Operators of one level, from left to right.
    Chain(Box<Expr<'a>>, Vec<Link<'a>>),
    Quantified(Quantified<'a>),
}

impl Drop for Expr<'_> {
    #[cycle(expression)]
    fn drop(self) {
        match self {
            Expr::Number(_) => {}
            Expr::Value(_) => {}
            Expr::Prior(_, _) => {}
            Expr::Neg(_) => {}
            Expr::Not(_) => {}
            Expr::Chain(_, _) => {}
            Expr::Quantified(_) => {}
        }
    }
}

/// An operator and its right operand.
#[cycle(expression)]
pub struct Link<'a> {
    pub op: Op,
    pub right: Expr<'a>,
}

impl Drop for Link<'_> {
    #[cycle(expression)]
    fn drop(self) {
        let Link { op: _, right: _ } = self;
    }
}

/// An expression over the numbers from `low` to `high`, which `name` stands for in the body.
#[cycle(expression)]
pub struct Quantified<'a> {
    pub kind: Quantifier,
    pub place: Place,
    pub name: Name<'a>,
    pub low: Box<Expr<'a>>,
    pub high: Box<Expr<'a>>,
    pub body: Box<Expr<'a>>,
}

impl Drop for Quantified<'_> {
    #[cycle(expression)]
    fn drop(self) {
        let Quantified {
            kind: _,
            place: _,
            name: _,
            low: _,
            high: _,
            body: _,
        } = self;
    }
}

/// The words `every`, `some` and `sum`.
#[derive(Clone, Copy)]
pub enum Quantifier {
    Every,
    Any,
    Total,
}

/// An operator of two operands.
#[derive(Clone, Copy)]
pub enum Op {
    Or,
    And,
    Eq,
    Ne,
    Lt,
    Le,
    Gt,
    Ge,
    Add,
    Sub,
    Mul,
    Div,
    Rem,
}
