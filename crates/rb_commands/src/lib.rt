//! The commands of `rbl`: which of them words ask for, and each in a file of its own name, as the driver carries it out.
#![tactic(auto)]

pub mod asking;
pub mod check;
pub mod code;
pub mod compile;
pub mod domino;
pub mod image;
pub mod load;
pub mod over_schedule;
pub mod plain;
pub mod request;
pub mod saying;
pub mod session;
pub mod source;
pub mod stuck;
pub mod summary;
pub mod survive;
pub mod trial;
pub mod why;

pub use asking::requested;
pub use request::{Request, command};
pub use why::Why;
