//! What one turn works on beside what its process can recover: operands, counters and the line under way, and the instructions on these alone.
#![tactic(auto)]

pub mod bench;
pub mod calculate;
pub mod counters;
pub mod deciding;
pub mod line;
pub mod next;
pub mod operands;

pub use bench::Bench;
pub use next::{Ended, Next};
