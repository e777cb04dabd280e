//! What each command makes of the texts of its files, as definitions, and the laws of these verdicts.
#![tactic(auto)]

pub mod laws;
pub mod limits;

pub use limits::MOST_IMAGE;
