//! What is kept in mind of a program from one turn to the next, as far as lines of a trace are compared by it.

use rb_base::Cause;

/// An open level: its recovery block, the alternate that is tried, the turns that it used, and the turn of its entry.
#[derive(Clone, Copy)]
pub struct OpenLevel {
    pub block: u32,
    pub alternate: u32,
    pub used: u32,
    pub entered: u32,
}

/// Whether a process runs, stands at a test line, is done, or has failed, and then with which cause.
#[derive(Clone, Copy)]
pub enum Stand {
    Runs,
    AtLine,
    Done,
    Failed(Cause),
}

/// The numbers of a channel: of the messages that were sent, that were taken, and that its receiver can see, and for how many more there
/// is room.
#[derive(Clone, Copy)]
pub struct Numbers {
    pub sent: u64,
    pub taken: u64,
    pub seen: u64,
    pub free: u64,
}

/// A conversation: its present alternate, and whether it is broken for good.
#[derive(Clone, Copy)]
pub struct TalkNoted {
    pub alternate: u32,
    pub is_broken: bool,
}

/// A process: the words of its variables, its open levels from the outside in, how many lines it holds, and how it stands.
pub struct ProcessWas {
    pub words: Vec<i64>,
    pub levels: Vec<OpenLevel>,
    pub held: u32,
    pub stand: Stand,
}

impl Drop for ProcessWas {
    fn drop(self) {
        let ProcessWas {
            words: _,
            levels: _,
            held: _,
            stand: _,
        } = self;
    }
}
