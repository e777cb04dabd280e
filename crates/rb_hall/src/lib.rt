//! The entrance hall: one driver that reads the files of any command in order, stops at the first refusal, writes, and ends.
#![tactic(auto)]

pub mod command;
pub mod driver;
pub mod ending;
pub mod fault;
pub mod outcome;
pub mod read;

pub use command::{Command, Stop, Unwritten, Wanted, Written};
pub use driver::drive;
pub use ending::carry_out;
pub use fault::Fault;
pub use outcome::{Carried, Outcome, Refusal};
