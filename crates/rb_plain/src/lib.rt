//! Plain runs: what survived a run, run alone over the tree, with nothing ever rejected.
#![tactic(auto)]

mod channels;
mod entry;
pub mod laws;
pub mod plain_run;
mod playing;
pub mod stuck;
mod test_line;
mod turn;
mod values;
mod want;

pub use plain_run::plain;
pub use stuck::{StuckTurn, stuck_cause};
