//! Whether a run still goes on: all processes have ended, some go on, or none can, and then what each waits for.
#![tactic(auto)]

pub mod laws;
pub mod rows;
pub mod standing;
pub mod surveying;
mod text;

pub use standing::Standing;
pub use surveying::survey;
pub use text::write_standing;
