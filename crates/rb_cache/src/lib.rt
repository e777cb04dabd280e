//! A recovery cache: levels of a list of words that can be put back as they were at their entry. Only the first old value of
//! what changes is saved (Horning, Lauer, Melliar-Smith and Randell 1974), never a whole copy; contracts speak of whole copies.
#![tactic(auto)]

mod cache;
mod chain;
mod entry;
mod grow;
pub mod laws;
mod merge;
mod save;
mod undo;

pub use cache::Cache;
