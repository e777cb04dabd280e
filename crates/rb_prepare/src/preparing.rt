//! From a source to its code.

ghost use Rattle.std.specs.Prelude.{◌≡◌, ◌≤◌, length, IfOk, IfErr};
ghost use Rattle.rb_judge.specs.Judged.{IsRefusal};
ghost use Rattle.rb_prepare.specs.Prepared.{IsPrepared};

use rb_base::{MOST_BYTES, Names, Nested, Refusal};
use rb_code::Code;
use rb_gen::generate;
use rb_judge::judge;
use std::alloc::Global;

/// An accepted source as it is executed: its code, with the names that lines and schedules speak of, and its conversations.
pub struct Prepared {
    pub code: Code,
    pub nested: Nested,
}

impl Drop for Prepared {
    fn drop(self) {
        let Prepared { code: _, nested: _ } = self;
    }
}

impl Prepared {
    /// The names alone; the rest is let go.
    pub fn into_names(self) -> Names
        ensures { result ≡ self.code.names }
    {
        let Prepared { code, nested: _ } = self;
        code.into_names()
    }
}

/// Judges a source and makes its code, or tells its first fault, as `judge` does. The code stands for the source's tree and is sound.
/// After a refusal nothing is kept.
pub fn prepare(alloc: Global, source: &[u8]) -> Result<Prepared, Refusal>
    requires { length source.now ≤ MOST_BYTES }
    ensures prepared { IfOk result (λ prepared. IsPrepared source.now prepared) }
    ensures refused { IfErr result (IsRefusal source.now) }
{
    let judged = judge(alloc, source)?;
    match generate(alloc, &judged.checked) {
        Ok(code) => Ok(Prepared {
            code,
            nested: judged.nested,
        }),
        Err(_) => Err(Refusal::Memory),
    }
}
