//! The search for the table of what is known at each address of code, and what is asked of the table that it finds.
#![tactic(auto)]

pub mod arrive;
pub mod cells;
pub mod join;
pub mod joining;
pub mod laws;
pub mod refusal;
pub mod search;
pub mod staying;
pub mod work;
