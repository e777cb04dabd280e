//! How a run stands.

/// Whether a run still goes on.
#[derive(Clone, Copy)]
pub enum Standing {
    /// Every process is done or has failed.
    Ended,
    /// Some process runs, and none can go on.
    Stuck,
    /// Some process can go on, or is rejected in its next turn since a level has used up its turns.
    Open,
}
