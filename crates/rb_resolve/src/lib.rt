//! What each name of a program stands for, or its first fault of scopes and limits: the walk over its tree, with a scope for each
//! block. What scopes and the rules are stands in rb_scope, and so do the wrong bodies that must be refused.
#![tactic(auto)]

mod expression;
pub mod laws;
mod lists;
mod naming;
mod operands;
mod program;
mod resolving;
mod rows;
mod rules;
mod sites;
mod spot;
mod statement;
mod variables;

pub use naming::names;
pub use resolving::resolve;
