//! The table of conversations: who is inside each, who stands at its test line, its alternate, and whether it is broken.
#![tactic(auto)]

mod conversation;
pub mod laws;
mod member;
mod rejection;
mod table;

pub use table::Table;
