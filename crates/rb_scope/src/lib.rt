//! Scopes of a program and the rules of names and limits: what a name means in the scopes around it, which of several faults is
//! told, and what is found so far. The walk that asks for it is rb_resolve.
#![tactic(auto)]

mod checked;
mod declared;
mod finder;
pub mod first;
mod limits;
mod scope;
pub mod slot;
mod want;

pub use checked::Checked;
pub use declared::Declared;
pub use finder::Finder;
pub use limits::most_processes;
pub use scope::{Scope, Scopes};
pub use slot::Slot;
pub use want::Want;
