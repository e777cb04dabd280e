//! Records: texts that list the kept turns of a run, and their first faults.
#![tactic(auto)]

pub mod laws;
pub mod record;
mod record_line;

pub use record::{Record, RecordRefusal};
