//! The lines and the messages that a history is made of.

use rb_base::Text;

/// A message of a history: its name, the processes that send and take it, and the place of its `send` among the lines.
pub struct Message {
    pub name: Text,
    pub sender: u32,
    pub receiver: u32,
    pub sent: u32,
}

impl Drop for Message {
    fn drop(self) {
        let Message {
            name: _,
            sender: _,
            receiver: _,
            sent: _,
        } = self;
    }
}

/// A line of a history. Processes and messages are numbered from 0 in the order of their first lines.
#[derive(Clone, Copy)]
pub enum Line {
    /// A process begins, with its recovery point 0.
    Begin(u32),
    /// A process comes to its next recovery point.
    Point(u32),
    /// A message is sent.
    Send(u32),
    /// A message is taken by its receiver.
    Take(u32),
    /// A process fails.
    Fail(u32),
}
