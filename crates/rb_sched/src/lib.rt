//! Schedules: the list of turns that a text asks for, read without taking memory.
#![tactic(auto)]

pub mod laws;
mod line;
mod rounds;
pub mod schedule;
mod turns;
pub mod words;

pub use schedule::Schedule;
