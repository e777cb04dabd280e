//! The parser: from the bytes of a source to its tree, or to the first fault. Its tests stand in rb_tests, since a crate with
//! tests is proved twice, and this one takes long. Wrong bodies that must be refused are those of rb_grammar (`must-fail`),
//! since each edit of a crate asks for one more proof of it from nothing.
#![tactic(auto)]

mod connections;
mod declarations;
mod expressions;
pub mod laws;
pub mod parser;
mod program;
mod simple_statements;
mod statements;
mod steps;

pub use parser::parse;
pub use rb_grammar::{Level, Terminal};
