//! The slots of one channel, in which the values of its messages lie.

ghost use Rattle.std.specs.Prelude.{◌≡◌, ℕ, ℤ, ◌<◌, ◌%◌, pos, List, length, replicate, slice_get, slice_set, Some, IfOk};

use rb_base::Memory;
use std::alloc::Global;
use std::marker::Model;

/// The slots of a channel, one for each message that it has room for. Message number `index` lies in the
/// slot `index` modulo their number. Contracts see the list of the values.
#[derive(Drop)]
pub struct Mail {
    values: Vec<i64>,
}

impl Model for Mail {
    ghost use Rattle.std.specs.Prelude.{ℤ, ◌<◌, List, vec_len};

    ghost Value = { List ℤ };

    ghost view = { λ m. m.values.items };

    ghost invariant = { λ m. 0 < vec_len m.values };
}

impl Mail {
    /// So many slots, each with the value 0. No other call takes memory.
    pub fn new(alloc: Global, size: u32) -> Result<Self, Memory>
        requires { 0 < size }
        ensures { IfOk result (λ mail. mail ≡ replicate size (pos 0)) }
    {
        let values = vec![in alloc; 0; size as usize]?;
        Ok(Mail { values })
    }

    fn slot(&self, index: u64) -> usize
        ensures slot { result ≡ index % length self.now }
        ensures within { result < length self.now }
    {
        (index % self.values.len() as u64) as usize
    }

    /// Puts a value into the slot of message number `index`; the other slots stay.
    pub fn put(&mut self, index: u64, value: i64)
        ensures { self.new ≡ slice_set self.old (index % length self.old) value }
    {
        let slot = self.slot(index);
        self.values[slot] = value;
    }

    /// The value in the slot of message number `index`.
    pub fn get(&self, index: u64) -> i64
        ensures { slice_get self.now (index % length self.now) ≡ Some result }
    {
        self.values[self.slot(index)]
    }
}
