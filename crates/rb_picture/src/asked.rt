//! What a process asks of its next turn.

/// What stands first in a process before its turn.
#[derive(Clone, Copy)]
pub enum Asked {
    /// Nothing: it is done, or has failed.
    Nothing,
    /// That the test line is passed at which it stands, of this conversation.
    Line(Option<u32>),
    /// Room on a channel.
    Room(u32),
    /// A message of a channel, for which it waits.
    Message(u32),
    /// A message of a channel, if one is there.
    Maybe(u32),
    /// To enter a recovery block.
    Entry(u32),
    /// To start an alternate of its innermost level: the number of its recovery block, and the alternate.
    Start(u32, u32),
    /// A step.
    Step,
}
