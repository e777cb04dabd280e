//! The slots of all channels of a program, by number.

ghost use Rattle.std.specs.Prelude.{◌≡◌, ◌<◌, ◌%◌, ◌∷◌, ◌++◌, pos, [], get_or, length, replicate, slice_get, slice_set, Some, IfOk, OnOk, OnErr};

use crate::mail::Mail;
use rb_base::Memory;
use std::alloc::Global;
use std::marker::Model;

/// The slots of channels, by number. Contracts see the list of them.
#[derive(Drop)]
pub struct Mails {
    all: Vec<Mail>,
}

impl Model for Mails {
    ghost use Rattle.std.specs.Prelude.{ℤ, List};

    ghost Value = { List (List ℤ) };

    ghost view = { λ m. m.all.items };
}

impl Mails {
    /// No channel. It takes no memory.
    pub fn none(alloc: Global) -> Self
        ensures { result ≡ [] }
    {
        Mails {
            all: Vec::new(alloc),
        }
    }

    /// No channel, and room for so many.
    pub fn with_room(alloc: Global, channels: usize) -> Result<Self, Memory>
        ensures { IfOk result (λ mails. mails ≡ []) }
    {
        Ok(Mails {
            all: Vec::with_capacity(alloc, channels)?,
        })
    }

    /// One channel more, with so many slots, each with the value 0.
    pub fn add(&mut self, alloc: Global, size: u32) -> Result<(), Memory>
        requires { 0 < size }
        ensures ok { OnOk result (self.new ≡ self.old ++ replicate size (pos 0) ∷ []) }
        ensures err { OnErr result (self.new ≡ self.old) }
    {
        self.all.push(Mail::new(alloc, size)?)?;
        Ok(())
    }

    /// How many channels there are.
    pub fn len(&self) -> usize
        ensures { result ≡ length self.now }
    {
        self.all.len()
    }

    /// Puts a value into the slot of message number `index` of a channel; all other slots stay.
    pub fn put(&mut self, channel: usize, index: u64, value: i64)
        requires { channel < length self.old }
        ensures { self.new
            ≡ slice_set self.old channel
            (slice_set (get_or self.old channel []) (index % length (get_or self.old channel [])) value) }
    {
        self.all[channel].put(index, value);
    }

    /// The value in the slot of message number `index` of a channel.
    pub fn get(&self, channel: usize, index: u64) -> i64
        requires { channel < length self.now }
        ensures { slice_get (get_or self.now channel []) (index % length (get_or self.now channel [])) ≡ Some result }
    {
        self.all[channel].get(index)
    }
}
