//! Code: its instructions, how it is listed, the machine that executes it with whole copies, and its agreement with the meaning.
#![tactic(auto)]

pub mod code;
pub mod instr;
pub mod laws;
mod line;
pub mod listing;
pub mod rows;

pub use code::{BlockCode, ChannelCode, Code, ProcedureCode, ProcessCode};
pub use instr::{Instr, Spot};
