//! What a source is to the grammar: its terminals and rows, the verdict of a text, the machine that reads by the rows and
//! what is true of it; and the cursor, which gives the tokens of a source in order and tells why reading stops.
#![tactic(auto)]

pub mod cursor;
pub mod endings;
pub mod level;
pub mod numbers;
pub mod operators;
pub mod stop;
pub mod terminal;

pub use cursor::Cursor;
pub use endings::{may_not_wait, read_no_alternate};
pub use level::Level;
pub use numbers::read_number;
pub use operators::{Operator, Word, find_comparison, find_operator, find_quantifier};
pub use stop::Stop;
pub use terminal::Terminal;
