//! A run: a loaded machine goes over a schedule, and its lines are written.
#![tactic(auto)]

mod block;
pub mod counting;
pub mod laws;
pub mod record;
mod rising;
pub mod running;
pub mod surviving;

pub use counting::{Counts, count};
pub use running::run;
pub use surviving::{Ended, survive};
