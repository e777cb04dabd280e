//! The text of a session: what its lines ask for, and what is to be shown for them.
#![tactic(auto)]

pub mod order;
pub mod script;

pub use order::Order;
pub use script::Script;
