//! What a turn works on beside its operands and what the process can recover.

ghost use Rattle.std.specs.Prelude.{◌≡◌, [], IfOk};
ghost use Rattle.rb_code.specs.WordMachine.Workspace.{no_counters};

use crate::counters::Counters;
use crate::line::Line;
use rb_base::Memory;
use std::alloc::Global;

/// The line under way and the counters of a turn.
#[derive(Drop)]
pub struct Bench {
    pub line: Line,
    pub counters: Counters,
}

impl Bench {
    /// An empty one, as a turn finds it; `Memory` if it is wanting.
    pub fn new(alloc: Global) -> Result<Self, Memory>
        ensures line { IfOk result (λ bench. bench.line.pieces ≡ []) }
        ensures counters { IfOk result (λ bench. bench.counters ≡ no_counters) }
    {
        Ok(Bench {
            line: Line::new(alloc)?,
            counters: Counters::new(),
        })
    }

    /// It is as a turn finds it.
    #[inline(always)]
    pub fn clear(&mut self)
        ensures line { self.new.line.pieces ≡ [] }
        ensures counters { self.new.counters ≡ no_counters }
    {
        self.line.clear();
        self.counters.clear();
    }
}
