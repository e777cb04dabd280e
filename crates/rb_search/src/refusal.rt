//! Why code is refused.

/// Why code is refused: it is not sound, or memory is wanting.
#[derive(Clone, Copy)]
pub enum Refusal {
    Unsound,
    Memory,
}
