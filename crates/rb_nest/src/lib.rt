//! The rules by which conversations and channels of a program nest, the recovery blocks around a statement, and the first fault so
//! far. What a program uses is gathered and judged in rb_uses, and its verdict is rb_nesting.
#![tactic(auto)]

mod blocks;
pub mod found;

pub use blocks::{Blocks, Joined};
