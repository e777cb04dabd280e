//! What a process of the machine is ready for in its turn, before the turn is taken.
#![tactic(auto)]

pub mod readiness;

pub use readiness::{ReadyFor, message_at, ready};
