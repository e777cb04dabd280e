//! What a process wants, what its steps come to, and how it stands.

use rb_base::Cause;

/// What a process wants of its next turn.
#[derive(Clone, Copy)]
pub enum Wanted {
    /// It is done, or has failed.
    Idle,
    /// It stands at the test line of its innermost level.
    Line,
    /// Room on a channel.
    Room(u32),
    /// A message of a channel, for which it waits.
    Message(u32),
    /// A message of a channel, if one is there.
    Maybe(u32),
    /// To enter a recovery block.
    Entry(u32),
    /// To start the alternate of its innermost level.
    Start,
    /// A step.
    Step,
}

/// What a step came to.
#[derive(Clone, Copy)]
pub enum Outcome {
    /// The process goes on.
    Went,
    /// The acceptance test of its innermost level held.
    Accepts,
    /// The step trapped, and has changed nothing.
    Trap(Cause),
}

/// Whether a process runs, is done, or has failed.
#[derive(Clone, Copy)]
pub enum ProcessStatus {
    Running,
    Finished,
    Failed(Cause),
}
