//! One process walks over the tree: its variables, the values of its expressions, and the steps of its statements, with nothing put back.
#![tactic(auto)]

mod blocks;
pub mod counter;
pub mod element;
pub mod environment;
pub mod frames;
pub mod halt;
pub mod held;
pub mod items;
mod performing;
mod room;
pub mod state;
mod steps;
pub mod value;

pub use environment::Environment;
pub use halt::Halt;
pub use state::State;
