//! Bytes that wait to be put together.

ghost use Rattle.std.specs.Prelude.{◌≡◌, [], OnOk};
ghost use Rattle.rb_run.specs.Gathers.{Gathers};

use arrayvec::ArrayVec;
use rb_outside::{Failed, Sink, put_all};

/// How many bytes can wait.
const ROOM: usize = 1024;

/// Bytes that wait, at most 1,024, so that many short texts cost one put.
#[derive(Drop)]
pub struct Block {
    pub bytes: ArrayVec<u8, ROOM>,
}

impl Block {
    /// None waits yet.
    pub fn new() -> Self
        ensures { result.bytes.items ≡ [] }
    {
        Block {
            bytes: ArrayVec::new(),
        }
    }

    /// Adds bytes to those that wait. Where there is no room for them, all that wait are put first.
    #[inline(always)]
    pub fn add<S: Sink>(&mut self, out: &mut S, bytes: &[u8]) -> Result<(), Failed>
        ensures { Gathers bytes.now self.old.bytes.items self.new.bytes.items (S.written out.old) (S.written out.new)
            (S.faults out.old) (S.faults out.new) result }
    {
        if self.bytes.remaining_capacity() < bytes.len() {
            self.put(out)?;
            return put_all(out, bytes);
        }
        self.bytes.try_extend_from_slice(bytes).unwrap();
        Ok(())
    }

    /// Puts all that wait.
    pub fn put<S: Sink>(&mut self, out: &mut S) -> Result<(), Failed>
        ensures gathers { Gathers [] self.old.bytes.items self.new.bytes.items (S.written out.old) (S.written out.new)
            (S.faults out.old) (S.faults out.new) result }
        ensures none { OnOk result (self.new.bytes.items ≡ []) }
    {
        put_all(out, self.bytes.as_slice())?;
        self.bytes.clear();
        Ok(())
    }
}
