//! All faults of a program that a rule of names, limits or nesting speaks of, in the order in which they are told: the first is
//! the one for which the program is refused.
#![tactic(auto)]

mod expression;
mod finder;
pub mod laws;
mod lists;
mod operands;
mod order;
mod program;
mod rows;
mod rules;
mod scoping;
mod sites;
mod spot;
mod statement;
mod told;
mod variables;

pub use scoping::faults_of_names;
pub use told::faults_of_source;
