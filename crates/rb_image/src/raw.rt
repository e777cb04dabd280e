//! What bytes were read as.

use rb_base::Nested;
use rb_code::Code;

/// A code and its conversations, of which nothing is known but that their numbers lie in the ranges of their types.
#[derive(Drop)]
pub struct Raw {
    pub code: Code,
    pub nested: Nested,
}
