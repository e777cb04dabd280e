//! The lines of a run, written to a sink.
#![tactic(auto)]

pub mod ending;
pub mod event;
pub mod final_state;
pub mod line;
pub mod report;

pub use ending::{write_end_line, write_status, write_variable};
pub use event::{write_event, write_out};
pub use final_state::{write_end, write_process, write_values};
pub use line::put_line;
pub use report::write_report;
