//! A process of a plain run with its open levels: what a kept turn makes of it alone, and what is told of a turn that can't be taken.
#![tactic(auto)]

pub mod answer;
pub mod cause;
mod moves;
pub mod process;
pub mod room;

pub use answer::PlainAnswer;
pub use cause::StuckCause;
pub use process::{Level, Process};
pub use room::{count_at, room_from};
