//! Declarations of variables, blocks and statements of the tree, with recovery blocks and printed items.

use crate::expression::{Expr, Name, Number, Target};
use rb_base::Place;

/// A declaration of a variable, or of an array with its number of elements.
#[derive(Clone, Copy)]
pub struct Var<'a> {
    pub name: Name<'a>,
    pub size: Option<Number>,
}

/// A block, which is a scope of its own.
#[cycle(statement)]
pub struct Block<'a> {
    pub vars: Vec<Var<'a>>,
    pub body: Vec<Statement<'a>>,
}

impl Drop for Block<'_> {
    #[cycle(statement)]
    fn drop(self) {
        let Block { vars: _, body: _ } = self;
    }
}

/// A statement.
#[cycle(statement)]
pub enum Statement<'a> {
    Assign(Target<'a>, Expr<'a>),
    Print(Vec<Item<'a>>),
    Send(Name<'a>, Expr<'a>),
    /// A receipt; with a block, it does not wait.
    Receive(Name<'a>, Target<'a>, Option<Block<'a>>),
    If(Expr<'a>, Block<'a>, Option<Block<'a>>),
    While(Expr<'a>, Block<'a>),
    Call(Name<'a>, Vec<Expr<'a>>),
    Fail,
    Recover(Recovery<'a>),
}

impl Drop for Statement<'_> {
    #[cycle(statement)]
    fn drop(self) {
        match self {
            Statement::Assign(_, _) => {}
            Statement::Print(_) => {}
            Statement::Send(_, _) => {}
            Statement::Receive(_, _, _) => {}
            Statement::If(_, _, _) => {}
            Statement::While(_, _) => {}
            Statement::Call(_, _) => {}
            Statement::Fail => {}
            Statement::Recover(_) => {}
        }
    }
}

/// A recovery block, or a member's part of a conversation. Recoveries are numbered from 0 in the order of
/// their word `ensure`, whose place this is.
#[cycle(statement)]
pub struct Recovery<'a> {
    pub number: u32,
    pub conversation: Option<Name<'a>>,
    pub place: Place,
    pub test: Expr<'a>,
    pub bound: Number,
    pub alternates: Vec<Block<'a>>,
}

impl Drop for Recovery<'_> {
    #[cycle(statement)]
    fn drop(self) {
        let Recovery {
            number: _,
            conversation: _,
            place: _,
            test: _,
            bound: _,
            alternates: _,
        } = self;
    }
}

/// An item of a `print`, with the place of its first token.
pub struct Item<'a> {
    pub place: Place,
    pub what: ItemKind<'a>,
}

impl Drop for Item<'_> {
    fn drop(self) {
        let Item { place: _, what: _ } = self;
    }
}

/// A text, without its quotes, or a value.
pub enum ItemKind<'a> {
    Text(&'a [u8]),
    Value(Expr<'a>),
}

impl Drop for ItemKind<'_> {
    fn drop(self) {
        match self {
            ItemKind::Text(_) => {}
            ItemKind::Value(_) => {}
        }
    }
}
