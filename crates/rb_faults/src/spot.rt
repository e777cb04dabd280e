//! Where an expression or a statement stands.

use rb_scope::Scopes;

/// Where an expression or a statement stands: the scopes around it, how many words of the running call their variables
/// take, how many quantified expressions are around it, and whether it is in an acceptance test.
#[derive(Clone, Copy)]
pub(crate) struct Spot<'s, 'a> {
    pub(crate) scopes: &'s Scopes<'s, 'a>,
    pub(crate) taken: u32,
    pub(crate) quantified: u32,
    pub(crate) in_test: bool,
}
