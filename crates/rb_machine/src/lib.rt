//! The machine: all processes with their recovery caches, the conversations and the channels, turn by turn.
#![tactic(auto)]

pub mod came;
pub mod channel_view;
pub mod ends;
pub mod entry;
pub mod laws;
pub mod loading;
pub mod looking;
pub mod machine;
pub mod moves;
pub mod reading;
pub mod rests;
pub mod step;
pub mod telling;
pub mod turn_laws;
pub mod undone;

pub use channel_view::ChannelView;
pub use machine::Machine;
