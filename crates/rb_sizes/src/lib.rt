//! How large the code and the image of an accepted source are: the image has at most sixteen bytes for each byte of the source.
#![tactic(auto)]

pub mod laws;
