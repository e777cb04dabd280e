//! The bytes of compiled images, written and read.
#![tactic(auto)]

pub mod laws;
mod raw;
pub mod read;
mod refusal;
pub mod rows;
pub mod write;

pub use raw::Raw;
pub use read::read_image;
pub use refusal::FormRefusal;
pub use write::write_image;
