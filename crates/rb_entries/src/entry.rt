//! What is known at an address, as the search keeps it: operands and open blocks by the numbers of their lists.

ghost use Rattle.std.specs.Prelude.{◌≡◌};

/// How far a turn has come.
#[derive(Clone, Copy)]
pub enum Mode {
    Fresh,
    MayPut(u32),
    MayTake(u32),
    Begun,
    Free,
    Changed,
}

/// The body that an address is in: the main body of a process, or its procedure at an address.
#[derive(Clone, Copy)]
pub struct Within {
    pub process: u32,
    pub procedure: Option<u32>,
}

/// An open recovery block, with the words of the running call at its entry.
#[derive(Clone, Copy)]
pub struct OpenBlock {
    pub number: u32,
    pub words: u64,
}

/// An open loop over a counter, from its first address to its last.
#[derive(Clone, Copy)]
pub struct Loop {
    pub counter: u32,
    pub first: u32,
    pub last: u32,
}

/// The open loops, the innermost first.
#[derive(Clone, Copy)]
pub enum Loops {
    Zero,
    One(Loop),
    Two(Loop, Loop),
}

/// An entry of the table.
#[derive(Clone, Copy)]
pub struct Held {
    pub within: Within,
    pub operands: u32,
    pub words: u64,
    pub blocks: u32,
    pub loops: Loops,
    pub pieces: u32,
    pub mode: Mode,
}

/// The block that is opened behind an entry: it keeps the words that it is entered with.
#[inline(always)]
pub fn opened(entry: Held, number: u32) -> OpenBlock
    ensures { result ≡ record { number = number; words = entry.words } }
{
    OpenBlock {
        number,
        words: entry.words,
    }
}
