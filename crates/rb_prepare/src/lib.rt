//! From a source to code that may be executed, and what is known of the code of every accepted source: that it is sound, and agrees with
//! the meaning over every list of turns, which `laws` says of whatever code stands for the source, and so of what `rb_gen::generate` answers.
#![tactic(auto)]

pub mod laws;
pub mod preparing;
pub mod sound;

pub use preparing::{Prepared, prepare};
