//! A sink of so many bytes in memory, whose calls fail only once it is full.
ghost use Rattle.std.specs.Prelude.{◌≡◌, [], Some, IfOk};
ghost use Rattle.rb_outside.specs.Outside.{no_faults};
ghost use Rattle.rb_web.specs.Kept.{FailsWhenFull};

use rb_base::Memory;
use rb_outside::{Failed, MemorySink, Sink};
use rb_tell::Blamed;
use std::alloc::Global;
use std::io;
use std::marker::Model;

/// A place for so many bytes. A call fails only where no room is left.
#[derive(Drop)]
pub struct Room {
    room: usize,
    sink: MemorySink,
}

impl Model for Room {
    ghost use Rattle.std.specs.Prelude.{◌≡◌, []};
    ghost use Rattle.rb_web.specs.Kept.{FailsWhenFull, KeptBytes};

    ghost Value = { KeptBytes };

    ghost view = { λ r. record { room = r.room; bytes = r.sink.bytes; faults = r.sink.calls.faults } };

    ghost invariant = { λ r. (r.sink.room ≡ r.room) × (r.sink.calls.failing ≡ []) × FailsWhenFull r.room r.sink.bytes r.sink.calls.faults };
}

impl Room {
    /// Reserves the room, so that no later call takes memory.
    pub fn new(alloc: Global, room: usize) -> Result<Self, Memory>
        ensures { IfOk result (λ place. place ≡ record { room = room; bytes = []; faults = no_faults }) }
    {
        match MemorySink::new(alloc, room, Vec::new(alloc)) {
            Ok(sink) => Ok(Room { room, sink }),
            Err(_) => Err(Memory),
        }
    }

    /// How many bytes there is room for in all.
    pub fn room(&self) -> usize
        ensures room { result ≡ self.now.room }
        ensures full { FailsWhenFull result self.now.bytes self.now.faults }
    {
        self.room
    }

    /// What was written.
    pub fn bytes(&self) -> &[u8]
        ensures { result.now ≡ self.now.bytes }
    {
        self.sink.bytes()
    }
}

impl Sink for Room {
    ghost written = { λ r. Some r.bytes };

    ghost faults = { λ r. r.faults };

    /// Appends as many bytes as there is room for. It fails only where no room is left.
    fn put(&mut self, bytes: &[u8]) -> Result<usize, Failed> {
        self.sink.put(bytes)
    }
}

impl Blamed for Room {
    /// Nothing: there is no system to say why.
    fn reason(&self) -> Option<io::Error> {
        None
    }
}
