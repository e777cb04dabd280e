//! How an open level is looked at from outside.

/// An open level as callers see it: of its recovery block the number, the line of its word `ensure`, the conversation if it has one, the
/// turn bound and how many alternates it has; then the alternate that is tried, counted from 1, and the turns that the level used.
#[derive(Clone, Copy)]
pub struct LevelView {
    pub block: u32,
    pub line: u32,
    pub conversation: Option<u32>,
    pub bound: u32,
    pub alternates: u32,
    pub alternate: u32,
    pub used: u32,
}

/// The copy of an open level beside its words: the address at which its process stood, how many words there were, and how many of the calls
/// that are open now were opened since: those are the newest ones, and the others are the copy's.
#[derive(Clone, Copy)]
pub struct CopyView {
    pub at: u32,
    pub height: u32,
    pub newer_calls: usize,
}
