//! The conversations of a program, or its first fault of nesting.
#![tactic(auto)]

pub mod laws;
mod nesting;

pub use nesting::nest;
