//! Histories of processes that recover without conversations: which recovery points a failure leaves, and for each
//! state that is given up the message that forced it.
#![tactic(auto)]

pub mod analysis;
mod board;
pub mod history;
pub mod laws;
pub mod line;
mod pieces;
mod reader;
pub mod rows;
mod sends;
mod stack;
pub mod state;
mod tables;
mod text;

pub use analysis::{Analysis, Dropped, NOW, analyse};
pub use history::{History, HistoryRefusal};
pub use line::{Line, Message};
pub use text::write_analysis;
