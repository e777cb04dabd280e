//! The verdict on a source: accepted with all that is made of it, or refused for its first fault.
#![tactic(auto)]

pub mod judging;
pub mod laws;

pub use judging::{Judged, judge};
