//! The lines that a process holds in a plain run.

ghost use Rattle.std.specs.Prelude.{◌≡◌, [], length, map};
ghost use Rattle.rb_walk.specs.Holding.{Adds};

use crate::halt::Halt;
use rb_base::limits::MOST_HELD_BYTES;
use std::alloc::Global;
use std::marker::Model;

/// Held lines, in order, with the number of their bytes, and one more for each line.
#[derive(Drop)]
pub struct Held {
    lines: Vec<Vec<u8>>,
    bytes: usize,
}

impl Model for Held {
    ghost use Rattle.std.specs.Prelude.{◌≡◌, ◌≤◌, ℕ, List, map};
    ghost use Rattle.rb_base.specs.declared.limits.TheConstants.{MOST_HELD_BYTES};
    ghost use Rattle.rb_meaning.specs.Step.{held_bytes};

    ghost Value = { List (List ℕ) };

    ghost view = { λ h. map (λ line. line.items) h.lines.items };

    ghost invariant = { λ h. (h.bytes ≡ held_bytes (map (λ line. line.items) h.lines.items)) × (h.bytes ≤ MOST_HELD_BYTES) };
}

impl Held {
    /// No line.
    pub fn new(alloc: Global) -> Self
        ensures { result ≡ [] }
    {
        Held {
            lines: Vec::new(alloc),
            bytes: 0,
        }
    }

    /// Holds one more line; stuck where the held bytes would be above 65,536.
    pub fn add(&mut self, line: Vec<u8>) -> Result<(), Halt>
        ensures { Adds self.old line.items self.new result }
    {
        if line.len() >= MOST_HELD_BYTES - self.bytes {
            return Err(Halt::Stuck);
        }
        let length = line.len() + 1;
        match self.lines.push(line) {
            Ok(()) => {
                self.bytes += length;
                Ok(())
            }
            Err(_) => Err(Halt::Memory),
        }
    }

    /// Holds nothing any more.
    pub fn clear(&mut self)
        ensures { self.new ≡ [] }
    {
        self.lines.clear();
        self.bytes = 0;
    }

    /// The lines in order.
    pub fn lines(&self) -> &[Vec<u8>]
        ensures { map (λ line. line.items) result.now ≡ self.now }
    {
        self.lines.as_slice()
    }
}
