//! The counters of quantified expressions.

ghost use Rattle.std.specs.Prelude.{◌≡◌, None, Some, slice_get, slice_set, option_map};
ghost use Rattle.std.specs.Option.{unwrap_or};
ghost use Rattle.rb_code.specs.WordMachine.Workspace.{no_counters};
ghost use Rattle.rb_operands.specs.Counting.{counting_of};

use std::marker::Model;

/// A counter: the number that it stands at, and the last one.
#[derive(Clone, Copy)]
pub struct Counting {
    pub now: i64,
    pub end: i64,
}

/// Two counters, each of which may be set. Contracts see their list.
#[derive(Drop)]
pub struct Counters {
    is_first: bool,
    is_second: bool,
    first: Counting,
    second: Counting,
}

impl Model for Counters {
    ghost use Rattle.std.specs.Prelude.{List, Option, [], ◌∷◌};
    ghost use Rattle.rb_code.specs.WordMachine.Workspace.{Counting as Counts};

    ghost Value = { List (Option Counts) };

    ghost use Rattle.rb_operands.specs.Counting.{set_if};

    ghost view = { λ c. set_if c.is_first c.first ∷ set_if c.is_second c.second ∷ [] };
}

// What lies in a counter that was never set.
const ZERO: Counting = Counting { now: 0, end: 0 };

impl Counters {
    /// None is set.
    pub fn new() -> Self
        ensures { result ≡ no_counters }
    {
        Counters {
            is_first: false,
            is_second: false,
            first: ZERO,
            second: ZERO,
        }
    }

    /// None is set any more.
    #[inline(always)]
    pub fn clear(&mut self)
        ensures { self.new ≡ no_counters }
    {
        self.is_first = false;
        self.is_second = false;
    }

    /// A counter by its number, if it is set.
    pub fn get(&self, k: u32) -> Option<Counting>
        ensures { option_map counting_of result ≡ unwrap_or (slice_get self.now k) None }
    {
        match k {
            0 if self.is_first => Some(self.first),
            1 if self.is_second => Some(self.second),
            _ => None,
        }
    }

    /// A counter is set.
    pub fn set(&mut self, k: u32, counter: Counting)
        ensures { self.new ≡ slice_set self.old k (Some (counting_of counter)) }
    {
        if k == 0 {
            self.is_first = true;
            self.first = counter;
        } else if k == 1 {
            self.is_second = true;
            self.second = counter;
        }
    }

    /// A counter goes.
    pub fn unset(&mut self, k: u32)
        ensures { self.new ≡ slice_set self.old k None }
    {
        if k == 0 {
            self.is_first = false;
        } else if k == 1 {
            self.is_second = false;
        }
    }
}
