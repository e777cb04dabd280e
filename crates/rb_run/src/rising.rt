//! A number that rises, with its decimal digits.

ghost use Rattle.std.specs.Prelude.{◌≡◌, cond, decimal};

use arrayvec::ArrayVec;
use itoa::Buffer;
use std::marker::Model;

/// How many digits a number has at most.
const MOST_DIGITS: usize = 10;

/// A number that rises, mostly by one, with its decimal digits. Contracts see the number.
#[derive(Drop)]
pub struct Rising {
    number: u32,
    digits: ArrayVec<u8, MOST_DIGITS>,
}

impl Model for Rising {
    ghost use Rattle.std.specs.Prelude.{◌≡◌, ℕ, decimal};

    ghost Value = { ℕ };

    ghost view = { λ rising. rising.number };

    ghost invariant = { λ rising. rising.digits.items ≡ decimal rising.number };
}

impl Rising {
    /// It begins at 0.
    pub fn new() -> Self
        ensures { result ≡ 0 }
    {
        let mut digits = ArrayVec::new();
        digits.push(b'0');
        Rising { number: 0, digits }
    }

    /// It is this number now.
    #[inline(always)]
    pub fn set(&mut self, number: u32)
        ensures { self.new ≡ number }
    {
        if !self.count_up_to(number) {
            self.spell(number);
        }
    }

    /// Its decimal digits.
    #[inline(always)]
    pub fn digits(&self) -> &[u8]
        ensures { result.now ≡ decimal self.now }
    {
        self.digits.as_slice()
    }

    // Counts the last digit up, where that alone makes it this number; true if so.
    #[inline(always)]
    fn count_up_to(&mut self, number: u32) -> bool
        ensures { self.new ≡ cond result number self.old }
    {
        if u64::from(number) != u64::from(self.number) + 1 {
            return false;
        }
        match self.digits.last_mut() {
            Some(digit) if *digit < b'9' => {
                *digit += 1;
                self.number = number;
                true
            }
            _ => false,
        }
    }

    // Each digit anew.
    #[cold]
    #[inline(never)]
    fn spell(&mut self, number: u32)
        ensures { self.new ≡ number }
    {
        let mut buffer = Buffer::new();
        self.digits.clear();
        self.digits
            .try_extend_from_slice(buffer.format(number).as_bytes())
            .unwrap();
        self.number = number;
    }
}
