//! The trace of a run: a loaded machine goes over a schedule, and all that its turns do and change is written.
#![tactic(auto)]

mod asking;
pub mod laws;
mod noting;
mod shown;
pub mod trace;
pub mod was;
mod writing;

pub use trace::write_trace;
pub use was::Was;
