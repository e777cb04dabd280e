//! What a process of the machine can recover: its words in a recovery cache, its calls, its levels and the lines that it holds.
#![tactic(auto)]

pub mod level_view;
pub mod marks;
pub mod recoverable;

pub use level_view::LevelView;
