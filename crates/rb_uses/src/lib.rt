//! The uses of conversations and channels in a program, what lies around each of them, and the rules of nesting that uses and
//! declarations break. Wrong bodies that must be refused are those of rb_nest and rb_nesting, so that this crate is proved once.
#![tactic(auto)]

mod conversations;
mod ends;
mod joins;
mod processes;
mod rules;
mod spot;
mod usage;
mod uses;
mod walk;

pub use conversations::{Facts, facts_of_conversations};
pub use ends::{Ends, ends_of_channels};
pub use rules::Rules;
pub use uses::Uses;
