//! Tokens and their kinds.

use rb_base::Place;

/// What a token is. A name that the edition reserves is a `Word`.
#[derive(Clone, Copy)]
pub enum Kind {
    Name,
    Word,
    /// With its value, which is not negative.
    Number(i64),
    Text,
    Mark,
}

/// A token: its kind, its whole slice of the source, quotes included, and the place of its first byte.
#[derive(Clone, Copy)]
pub struct Token<'a> {
    pub kind: Kind,
    pub text: &'a [u8],
    pub place: Place,
}
