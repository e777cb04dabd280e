//! The words of a command line: which are no options, and commands that take words by their places, as `clap` reads them.
#![tactic(auto)]

pub mod leaf;
pub mod plain;

pub use leaf::{command_and_last, command_with};
pub use plain::{are_plain, is_plain};
