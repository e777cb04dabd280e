//! The program `rblview` from its words to its exit status: what a fault or a cause means, the trace of a run, by itself or in a page, what a
//! program comes to over all schedules, and all faults of a source.
#![tactic(auto)]

pub mod asking;
pub mod entrance;
pub mod explore;
pub mod faults;
pub mod page;
pub mod put_run;
pub mod request;
pub mod searched;
pub mod trace;
pub mod traced;

pub use asking::requested;
pub use entrance::hall;
pub use request::{Wish, command};
