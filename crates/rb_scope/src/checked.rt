//! A program with what each of its names stands for.

use crate::slot::Slot;
use rb_syntax::Program;

/// A program whose names are resolved: what each name stands for, by the number of the name.
pub struct Checked<'a> {
    pub program: Program<'a>,
    pub slots: Vec<Slot>,
}

impl Drop for Checked<'_> {
    fn drop(self) {
        let Checked {
            program: _,
            slots: _,
        } = self;
    }
}
