//! What is known at an address of code, as it is kept in memory: its entry, whether it is to be followed, and what two entries have in common.
#![tactic(auto)]

pub mod cell;
pub mod entry;
pub mod meeting;
