//! Where each instruction leads from an entry, and with which entries, or that its rule is broken; and the lists that entries have in common.
#![tactic(auto)]

pub mod blocks;
pub mod ends;
pub mod entering;
pub mod flow;
pub mod laws;
pub mod lists;
pub mod moving;
pub mod operating;
pub mod pushing;
pub mod rules;
pub mod stacks;
pub mod taking;
pub mod way;
