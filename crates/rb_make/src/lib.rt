//! Trials: a source and a schedule that are made from a number, as large input that is the same each time.
#![tactic(auto)]

mod piece;
mod source;
pub mod trial;

pub use trial::{make, process_count};
