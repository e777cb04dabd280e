//! The program `rbl` from its words to its exit status: the call that its `main` makes, what standard error is told of the end of a command,
//! and the words that the host gives.
#![tactic(auto)]

pub mod end;
pub mod entrance;
pub mod given;
pub mod host;
pub mod reason;

pub use end::{End, Telling, put_told, tell};
pub use entrance::{Left, hall};
pub use given::words_given;
pub use host::Blamed;
