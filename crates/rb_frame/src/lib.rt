//! A line of a text as it is shown, with a mark under a place, and what is written around it of a fault.
#![tactic(auto)]

pub mod frame;
pub mod joined;
pub mod lines;
pub mod places;
