//! Code under construction: the draft and the steps by which it grows, and what a name stands for in it.
#![tactic(auto)]

pub mod channels;
pub mod draft;
pub mod frames;
pub mod lookups;

pub use draft::{Draft, fill, here, leave, narrow, patch, put, put_text, settle};
