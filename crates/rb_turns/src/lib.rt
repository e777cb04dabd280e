//! Sound code runs over the turns of a schedule, and the text of the run is written.
#![tactic(auto)]

pub mod run;

pub use run::run_turns;
