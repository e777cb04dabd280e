//! What the words of the command lines of `rbl` and of `rblview` ask for. They are read with `clap`.
#![tactic(auto)]

pub mod asking;
pub mod guides;
pub mod helping;
mod leading;
pub mod line;
pub mod misasked;
pub mod number;
mod rows;
pub mod viewing;
pub mod words;
pub mod wrong;

pub use asking::{Asked, asked_for};
pub use guides::{Guide, command_guides, view_guides};
pub use helping::{guide_named, help, version};
pub use line::{none_unless_memory, program_alone, with_commands};
pub use viewing::{View, view_for};
pub use words::Words;
pub use wrong::misnamed;
