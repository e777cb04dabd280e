//! What the cache keeps: an entry for each saved value, and a mark for each open level.

/// A place, the value of its word before it was written, and the stamp that the place had then.
#[derive(Clone, Copy)]
pub struct Entry {
    pub place: u32,
    pub value: i64,
    pub earlier: usize,
}

/// Where an open level's entries begin in the arena, and how many words there were at its entry.
#[derive(Clone, Copy)]
pub struct Mark {
    pub first: usize,
    pub height: u32,
}
