//! The turn of a world of processes, over any kind of process state: levels, rejections, test lines, channels and
//! printed lines. All of it is definitions and laws, in specs/ and proofs/; no code is run from here.
#![tactic(auto)]

mod laws;

pub use laws::{
    counted_runs_stand, counts_are_unseen, marks_are_unseen, marks_are_unseen_in_records,
    outermost_is_rejected,
};
