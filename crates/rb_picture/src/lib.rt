//! The picture of a run as text: its trace, which tells of each turn what it did and what it changed.
#![tactic(auto)]

pub mod asked;
pub mod head;
pub mod held;
pub mod laws;
pub mod places;
pub mod process;
pub mod rows;
pub mod turn;

pub use asked::Asked;
pub use head::write_head;
pub use places::places_of;
pub use process::write_process;
pub use rb_changes::noted::{Numbers, OpenLevel, ProcessWas, Stand, TalkNoted};
pub use turn::write_turn;
