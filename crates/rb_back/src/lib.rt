//! Sessions: a run that is stepped forth and back, by undo.
#![tactic(auto)]

pub mod laws;
mod loading;
mod noting;
pub mod rows;
pub mod session;
pub mod showing;
pub mod shown;
mod stores;
mod view;

pub use session::Session;
pub use showing::{Stopped, show_all};
pub use shown::write_shown;
