//! What a trace tells of the changes of one turn: of levels, variables, channels and conversations; and the places of a program at which
//! turns begin.
#![tactic(auto)]

pub mod between;
pub mod change;
pub mod levels;
pub mod noted;
pub mod place;
pub mod turn_places;
pub mod variables;
