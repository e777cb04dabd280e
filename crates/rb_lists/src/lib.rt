//! Whether the lists of a code and its conversations are well formed: one file a kind of rule.
#![tactic(auto)]

mod blocks;
mod channels;
mod distinct;
mod few;
mod groups;
mod instrs;
pub mod lists;
mod names;
mod once;
mod parts;
mod rule;
mod texts;

pub use lists::{Refusal, check_lists};
