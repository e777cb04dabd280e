//! One process of the machine: what it wants, its steps, and the instructions that they carry out on what it can recover.
#![tactic(auto)]

pub mod answers;
pub mod channels;
pub mod instruction;
pub mod kinds;
pub mod process;
pub mod run;
pub mod sight;
pub mod wants;
pub mod words;

pub use answers::{Outcome, ProcessStatus, Wanted};
pub use process::Proc;
pub use rb_recoverable::LevelView;
