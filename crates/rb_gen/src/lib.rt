//! From the tree of a program to its code.
#![tactic(auto)]

mod expressions;
pub mod laws;
mod linking;
mod processes;
mod program;
mod simple;
mod statements;

pub use program::generate;
