//! A sink before another one, which escapes what is put.

ghost use Rattle.std.specs.Prelude.{◌≡◌, ◌≤◌, ℕ, List, Option, [], ◌∷◌, drop, true, false, length, OnOk, OnErr};
ghost use Rattle.rb_outside.specs.Outside.{Faults, then_written, failed_once, went_well};
ghost use Rattle.rb_outside.specs.Puts.{Puts};
ghost use Rattle.rb_page.specs.Escape.{escaped, is_plain, reference};
ghost use Rattle.rb_page.specs.Told.{Passes, put_since, told};

use crate::escape::is_plain;
use arrayvec::ArrayVec;
use itoa::Buffer;
use rb_outside::{Failed, Sink};
use std::snapshot::Snapshot;

/// How many bytes a reference has at most.
const LONGEST: usize = 6;

/// A sink before which a text is escaped: what is put into it stands in the sink behind as it stands in a page. Call `finish` in the end, since
/// the last reference may not have passed whole.
pub struct Escaped<S: Sink> {
    sink: S,
    // The sink as it was at the start, which contracts alone see.
    start: Snapshot<S>,
    // What is left of the last reference.
    rest: ArrayVec<u8, LONGEST>,
    ghost passes: { Passes (S.written start.value) (S.written sink) rest.items },
}

impl<S: Sink> Escaped<S> {
    /// A sink before this one.
    pub fn before(sink: S) -> Self
        ensures sink { result.sink ≡ sink }
        ensures fresh { ⟦<Escaped<S> as Sink>⟧.written result ≡ told (S.written sink) [] }
    {
        let start = Snapshot::of(&sink);
        Escaped {
            sink,
            start,
            rest: ArrayVec::new(),
        }
    }

    /// Passes on what is left, unless a write failed before, and gives back the sink behind, and whether all was written: a text that was put
    /// into this sink from the start on, as `written` says, was put escaped into the sink behind.
    pub fn finish(self, written: Result<(), Failed>) -> (S, Result<(), Failed>)
        ensures { (start : Option (List ℕ)) (faults : Faults) (text : List ℕ)
            → Puts text (told start []) (⟦<Escaped<S> as Sink>⟧.written self) faults (S.faults self.sink) written
            → Puts (escaped text) start (S.written result.0) faults (S.faults result.0) result.1 }
    {
        let mut before = self;
        let ended = before.end(written);
        let Escaped {
            sink,
            start: _start,
            rest: _rest,
        } = before;
        (sink, ended)
    }

    fn end(&mut self, written: Result<(), Failed>) -> Result<(), Failed>
        ensures { (start : Option (List ℕ)) (faults : Faults) (text : List ℕ)
            → Puts text (told start []) (⟦<Escaped<S> as Sink>⟧.written self.old) faults (S.faults self.old.sink) written
            → Puts (escaped text) start (S.written self.new.sink) faults (S.faults self.new.sink) result }
    {
        match written {
            Ok(()) => self.settle(),
            Err(failed) => Err(failed),
        }
    }

    // Passes on what is left of the last reference. After `Failed` a part of it may have passed, and the rest still waits.
    fn settle(&mut self) -> Result<(), Failed>
        ensures start { self.new.start.value ≡ self.old.start.value }
        ensures same { then_written (S.written self.new.sink) self.new.rest.items ≡ then_written (S.written self.old.sink) self.old.rest.items }
        ensures settled { OnOk result (self.new.rest.items ≡ []) }
        ensures quiet { OnOk result ((S.faults self.new.sink).count ≡ (S.faults self.old.sink).count) }
        ensures failed { OnErr result (S.faults self.new.sink ≡ failed_once (S.faults self.old.sink)) }
    {
        while !self.rest.is_empty() {
            let n = self.sink.put(self.rest.as_slice())?;
            self.rest = left_of(&self.rest, n);
        }
        Ok(())
    }

    // Takes a byte, where nothing is left of a reference.
    fn take_byte(&mut self, byte: u8) -> Result<(), Failed>
        requires { self.old.rest.items ≡ [] }
        ensures start { self.new.start.value ≡ self.old.start.value }
        ensures ok { OnOk result (then_written (S.written self.new.sink) self.new.rest.items
            ≡ then_written (then_written (S.written self.old.sink) self.old.rest.items) (escaped (byte ∷ []))) }
        ensures err { OnErr result (then_written (S.written self.new.sink) self.new.rest.items
            ≡ then_written (S.written self.old.sink) self.old.rest.items) }
        ensures quiet { OnOk result (S.faults self.new.sink ≡ went_well (S.faults self.old.sink)) }
        ensures failed { OnErr result (S.faults self.new.sink ≡ failed_once (S.faults self.old.sink)) }
    {
        if is_plain(byte) {
            self.pass(byte)
        } else {
            self.begin(byte)
        }
    }

    // Passes on a byte that stands for itself.
    fn pass(&mut self, byte: u8) -> Result<(), Failed>
        requires settled { self.old.rest.items ≡ [] }
        requires plain { is_plain byte ≡ true }
        ensures start { self.new.start.value ≡ self.old.start.value }
        ensures ok { OnOk result (then_written (S.written self.new.sink) self.new.rest.items
            ≡ then_written (then_written (S.written self.old.sink) self.old.rest.items) (escaped (byte ∷ []))) }
        ensures err { OnErr result (then_written (S.written self.new.sink) self.new.rest.items
            ≡ then_written (S.written self.old.sink) self.old.rest.items) }
        ensures quiet { OnOk result (S.faults self.new.sink ≡ went_well (S.faults self.old.sink)) }
        ensures failed { OnErr result (S.faults self.new.sink ≡ failed_once (S.faults self.old.sink)) }
    {
        let _n = self.sink.put(&[byte])?;
        Ok(())
    }

    // Passes on the first byte of a reference, and keeps what is left of it.
    fn begin(&mut self, byte: u8) -> Result<(), Failed>
        requires settled { self.old.rest.items ≡ [] }
        requires other { is_plain byte ≡ false }
        ensures start { self.new.start.value ≡ self.old.start.value }
        ensures ok { OnOk result (then_written (S.written self.new.sink) self.new.rest.items
            ≡ then_written (then_written (S.written self.old.sink) self.old.rest.items) (escaped (byte ∷ []))) }
        ensures err { OnErr result (then_written (S.written self.new.sink) self.new.rest.items
            ≡ then_written (S.written self.old.sink) self.old.rest.items) }
        ensures quiet { OnOk result (S.faults self.new.sink ≡ went_well (S.faults self.old.sink)) }
        ensures failed { OnErr result (S.faults self.new.sink ≡ failed_once (S.faults self.old.sink)) }
    {
        let _n = self.sink.put(b"&")?;
        self.rest = behind_sign(byte);
        Ok(())
    }
}

impl<S: Sink> Sink for Escaped<S> {
    ghost written = { λ e. told (S.written e.start.value) (put_since (S.written e.start.value) (then_written (S.written e.sink) e.rest.items)) };

    ghost faults = { λ e. S.faults e.sink };

    fn put(&mut self, bytes: &[u8]) -> Result<usize, Failed> {
        self.settle()?;
        self.take_byte(bytes[0])?;
        Ok(1)
    }
}

// What is left of a reference behind its first n bytes.
fn left_of(rest: &ArrayVec<u8, LONGEST>, n: usize) -> ArrayVec<u8, LONGEST>
    requires { n ≤ length rest.now.items }
    ensures { result.items ≡ drop n rest.now.items }
{
    let mut left = ArrayVec::new();
    left.try_extend_from_slice(&rest.as_slice()[n..]).unwrap();
    left
}

// A reference behind its `&`.
fn behind_sign(byte: u8) -> ArrayVec<u8, LONGEST>
    ensures { 38 ∷ result.items ≡ reference byte }
{
    let mut buffer = Buffer::new();
    let mut left = ArrayVec::new();
    left.push(b'#');
    left.try_extend_from_slice(buffer.format(byte).as_bytes())
        .unwrap();
    left.push(b';');
    left
}
