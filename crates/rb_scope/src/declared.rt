//! Declarations in memory.

use crate::slot::Slot;
use rb_syntax::Name;

/// A declaration: the name where it stands, what it stands for, and how many parameters a procedure has.
#[derive(Clone, Copy)]
pub struct Declared<'a> {
    pub name: Name<'a>,
    pub slot: Slot,
    pub parameters: usize,
}
