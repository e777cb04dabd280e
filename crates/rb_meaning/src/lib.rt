//! The meaning of a program: the world over its tree, in which each recovery point is a whole copy of a process's
//! state. Definitions stand in specs/, and their laws in proofs/; of code there are only the numbers of names. What
//! is from a paper is marked with its year; the rest is this project's own, but for words of the field, as test line.
#![tactic(auto)]

pub mod laws;
pub mod numbers;
pub mod rows;
pub mod together;
