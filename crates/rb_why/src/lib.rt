//! Why a text is refused, in words: where, what is wrong, and what to look at next.
#![tactic(auto)]

mod blocks;
mod bytes;
mod converses;
mod expected;
pub mod file;
mod habits;
pub mod laws;
mod likeness;
mod listed;
mod meant;
mod named;
mod nested;
mod open;
mod phrases;
mod remarks;
mod scope;
mod seconds;
pub mod source;
pub mod stuck;
pub mod text;
mod tokens;
mod words;

pub use file::{file_reason, long_reason};
pub use source::source_reason;
pub use stuck::stuck_reason;
pub use text::{names_process, text_reason};
