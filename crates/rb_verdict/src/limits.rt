//! How long a file may be, beside the limit of texts.

/// The most bytes that an image may have.
pub const MOST_IMAGE: usize = 16_777_216;
