//! A process's words: one list, in which each word that is read, written or zeroed is counted.
#![tactic(auto)]

mod cells;

pub use cells::Cells;
