//! What the use of a name asks for.

/// What a use of a name wants it to stand for.
#[derive(Clone, Copy)]
pub enum Want {
    AProcess,
    AChannel,
    AConversation,
    AProcedure,
    /// A scalar to store in, or to read as it was before the recovery block.
    AScalar,
    AnArray,
    /// The present value of a scalar.
    AValue,
}
