//! The page of a run: a page with marks, in whose places texts stand, escaped so that none of them can end the element in which it stands.
#![tactic(auto)]

pub mod escape;
pub mod escaped;
pub mod page;
pub mod rows;

pub use escape::put_escaped;
pub use escaped::Escaped;
pub use page::Page;
