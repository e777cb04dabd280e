//! The tree of a program, as the parser makes it. Names and texts are slices of the source.
#![tactic(auto)]

pub mod expression;
pub mod program;
pub mod statement;

pub use expression::{Expr, Link, Name, Number, Op, Quantified, Quantifier, Target};
pub use program::{Channel, Conversation, Procedure, Process, Program};
pub use statement::{Block, Item, ItemKind, Recovery, Statement, Var};
