//! What operators give for two values, and the numbers that a quantified expression goes through: the machine and the plain
//! run count alike.
#![tactic(auto)]

pub mod operator;
pub mod span;
