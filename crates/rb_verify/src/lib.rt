//! Whether code is sound: the search finds its table, loops stay open in it, and members join their conversations once.
#![tactic(auto)]

pub mod decision;

pub use decision::verify;
pub use rb_search::refusal::Refusal;
