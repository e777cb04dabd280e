//! The lines that a process holds back until they may come out, and those that wait to be printed, in memory that was reserved.
#![tactic(auto)]

pub mod hold;
pub mod room;

pub use hold::Hold;
