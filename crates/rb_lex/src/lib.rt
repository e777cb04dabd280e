//! Tokens of a source, one at a time. They borrow the source: no byte is copied and no memory is taken.
#![tactic(auto)]

mod bytes;
mod cut;
mod gap;
pub mod laws;
pub mod lexer;
mod marks;
mod numbers;
mod reading;
mod texts;
pub mod token;
mod words;

pub use lexer::Lexer;
pub use token::{Kind, Token};
pub use words::is_reserved;
