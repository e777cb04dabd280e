//! Held and released lines of one process, in one buffer that is reserved at the start.

ghost use Rattle.std.specs.Prelude.{◌≡◌, ℕ, ◌+◌, ◌≤◌, ◌∷◌, ◌++◌, [], cond, length, take, drop, slice_get, nat_lt, not, option_copied, option_map, count_by, position, ◌==◌, IfOk};
ghost use Rattle.std.specs.Borrow.{sem};
ghost use Rattle.std.specs.Io.BufRead.{Rests};
ghost use Rattle.rb_base.specs.declared.limits.TheConstants.{MOST_HELD_BYTES};
ghost use Rattle.rb_hold.specs.Held.{held_bytes, IsLine, IsLengthOf};
ghost use Rattle.rb_hold.specs.Stored.{lines_in, AreLines};

mod looking;

use rb_base::Memory;
use rb_base::limits::MOST_HELD_BYTES;
use std::alloc::Global;
use std::marker::Model;

/// The lines that a process holds, and its released lines that wait, in order. Both lie in one buffer, in memory that
/// `new` reserves: no other call takes any.
#[derive(Drop)]
pub struct Hold {
    // Lines, each with LF after it.
    lines: Vec<u8>,
    // The first bytes of the buffer that are held.
    held: usize,
    // The bytes from here on are released, and wait.
    waiting: usize,
}

impl Model for Hold {
    ghost use Rattle.std.specs.Prelude.{take, drop, vec_capacity};
    ghost use Rattle.rb_hold.specs.Held.{TwoLists};
    ghost use Rattle.rb_hold.specs.Stored.{lines_in, IsBuffer};

    ghost Value = { TwoLists };

    ghost view = { λ h. record { held = lines_in (take h.held h.lines.items); released = lines_in (drop h.waiting h.lines.items) } };

    ghost invariant = { λ h. IsBuffer h.lines.items h.held h.waiting (vec_capacity h.lines) };
}

impl Hold {
    ghost use Rattle.rb_hold.specs.contracts.hold.Hold.{the_row};

    /// No line, with room reserved for all that can be held.
    pub fn new(alloc: Global) -> Result<Self, Memory>
        ensures { IfOk result (λ hold. hold ≡ record { held = []; released = [] }) }
    {
        let lines = Vec::with_capacity(alloc, MOST_HELD_BYTES)?;
        Ok(Hold {
            lines,
            held: 0,
            waiting: 0,
        })
    }

    /// The held bytes: those of the held lines, and one more for each line.
    pub fn length(&self) -> u32
        ensures { result ≡ held_bytes self.now.held }
    {
        self.held as u32
    }

    /// Holds one more line. False, with nothing changed, exactly where the held bytes would be above 65,536.
    pub fn add(&mut self, line: &[u8]) -> bool
        requires none_waits { self.old.released ≡ [] }
        requires line { IsLine line.now }
        ensures room { result ≡ not (nat_lt MOST_HELD_BYTES (held_bytes self.old.held + (length line.now + 1))) }
        ensures after { self.new ≡ cond result (record self.old { held = self.old.held ++ line.now ∷ [] }) self.old }
    {
        if line.len() >= MOST_HELD_BYTES - self.held {
            return false;
        }
        // The room was reserved, so this takes no memory and does not fail.
        self.lines.truncate(self.held);
        self.lines.extend_from_slice(line).unwrap();
        self.lines.push(b'\n').unwrap();
        self.held = self.lines.len();
        self.waiting = self.held;
        true
    }

    /// Keeps the first held lines that have these held bytes, and forgets the others.
    pub fn cut_to(&mut self, length: u32)
        requires none_waits { self.old.released ≡ [] }
        requires prefix { (k : ℕ) × IsLengthOf length k self.old.held }
        ensures { (k : ℕ) → IsLengthOf length k self.old.held → self.new ≡ record self.old { held = take k self.old.held } }
    {
        self.held = length as usize;
    }

    /// Releases all held lines.
    pub fn release(&mut self)
        requires none_waits { self.old.released ≡ [] }
        ensures { self.new ≡ record { held = []; released = self.old.held } }
    {
        self.lines.truncate(self.held);
        self.held = 0;
        self.waiting = 0;
    }

    /// Lends the first released line, which no longer waits then; `None` exactly where none waits.
    pub fn next_line(&mut self) -> Option<&[u8]>
        ensures lent { option_copied result ≡ slice_get self.old.released 0 }
        ensures* after { sem 𝓛 (Rests the_row self.entry (λ new. new ≡ record self.old { released = drop 1 self.old.released })) }
    {
        let start = self.waiting;
        let length = first_length(&self.lines[start..])?;
        let end = start + length;
        self.waiting = end + 1;
        Some(&self.lines[start..end])
    }

    /// Forgets the released lines that wait, and answers how many they were.
    pub fn drop_released(&mut self) -> u32
        ensures count { result ≡ length self.old.released }
        ensures few { result ≤ MOST_HELD_BYTES }
        ensures none { self.new ≡ record self.old { released = [] } }
    {
        if self.waiting == self.lines.len() {
            return 0;
        }
        let count = count_lines(&self.lines[self.waiting..]);
        self.waiting = self.lines.len();
        count
    }
}

// How many lines stored bytes have.
fn count_lines(bytes: &[u8]) -> u32
    requires lines { AreLines bytes.now }
    requires few { length bytes.now ≤ MOST_HELD_BYTES }
    ensures count { result ≡ length (lines_in bytes.now) }
    ensures few { result ≤ MOST_HELD_BYTES }
{
    count_ends(bytes) as u32
}

// How many bytes are LF.
fn count_ends(bytes: &[u8]) -> usize
    ensures { result ≡ count_by (λ byte. byte == 10) bytes.now }
{
    bytes.iter().filter(|byte| **byte == b'\n').count()
}

/// The length of the first of stored lines, if there is one.
pub fn first_length(bytes: &[u8]) -> Option<usize>
    requires { AreLines bytes.now }
    ensures { result ≡ option_map length (slice_get (lines_in bytes.now) 0) }
{
    first_end(bytes)
}

// The place of the first LF.
fn first_end(bytes: &[u8]) -> Option<usize>
    ensures { result ≡ position (λ byte. byte == 10) bytes.now }
{
    bytes.iter().position(|byte| *byte == b'\n')
}
