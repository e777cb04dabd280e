//! The operands of one turn.

ghost use Rattle.std.specs.Prelude.{◌≡◌, ◌<◌, ◌≤◌, [], ◌∷◌, length};
ghost use Rattle.rb_base.specs.declared.limits.TheConstants.{MOST_OPERANDS};
ghost use Rattle.rb_code.specs.WordMachine.Act.{arguments, below};

use std::marker::Model;

/// At most `MOST_OPERANDS` numbers on a stack, in memory that is lent for a turn. Contracts see their list, the top first.
#[derive(Drop)]
pub struct Operands<'a> {
    values: &'a mut [i64],
    height: usize,
}

impl<'a> Model for Operands<'a> {
    ghost use Rattle.std.specs.Prelude.{◌≡◌, ℤ, ◌≤◌, List, take, reverse, length};
    ghost use Rattle.rb_base.specs.declared.limits.TheConstants.{MOST_OPERANDS};

    ghost Value = { List ℤ };

    ghost view = { λ s. reverse (take s.height s.values.now) };

    ghost invariant = { λ s. (length s.values.now ≡ MOST_OPERANDS) × (s.height ≤ MOST_OPERANDS) };
}

impl<'a> Operands<'a> {
    /// None yet, in this memory.
    #[inline(always)]
    pub fn none(values: &'a mut [i64]) -> Self
        requires { length values.old ≡ MOST_OPERANDS }
        ensures { result ≡ [] }
    {
        Operands { values, height: 0 }
    }

    /// There are no more than that. Nothing is done: whoever calls it knows it then.
    #[inline(always)]
    pub fn are_few(&self)
        ensures { length self.now ≤ MOST_OPERANDS }
    {
        let _ = &self.height;
    }

    /// One more, on top.
    #[inline(always)]
    pub fn push(&mut self, value: i64)
        requires { length self.old < MOST_OPERANDS }
        ensures { self.new ≡ value ∷ self.old }
    {
        self.values[self.height] = value;
        self.height += 1;
    }

    /// The top one, which goes.
    #[inline(always)]
    pub fn pop(&mut self) -> i64
        requires { 0 < length self.old }
        ensures popped { self.old ≡ result ∷ self.new }
        ensures few { length self.old ≤ MOST_OPERANDS }
    {
        self.height -= 1;
        self.values[self.height]
    }

    /// The top so many, the deepest first.
    #[inline(always)]
    pub fn top(&self, count: u32) -> &[i64]
        requires { count ≤ length self.now }
        ensures top { result.now ≡ arguments count self.now }
    {
        &self.values[self.height - count as usize..self.height]
    }

    /// The top so many go.
    #[inline(always)]
    pub fn drop_top(&mut self, count: u32)
        requires { count ≤ length self.old }
        ensures { self.new ≡ below count self.old }
    {
        self.height -= count as usize;
    }
}
