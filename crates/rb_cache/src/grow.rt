//! Stamps for the words that are there when a level is opened.

ghost use Rattle.std.specs.Prelude.{◌≡◌, ◌-◌, ◌≤◌, ◌++◌, length, min, replicate, vec_capacity};

/// Adds stamps of 0, up to `count` of them.
#[cold]
#[inline(never)]
fn grow(stamps: &mut Vec<usize>, count: u32)
    requires { count ≤ vec_capacity stamps.old }
    ensures stamps { stamps.new.items ≡ stamps.old.items ++ replicate (count - length stamps.old.items) 0 }
    ensures room { vec_capacity stamps.new ≡ vec_capacity stamps.old }
{
    for _i in stamps.len()..count as usize {
        stamps.push_reserved(0);
    }
}

/// Each place below `height` has a stamp from now on, if it is below `words`.
#[inline(always)]
pub fn cover(stamps: &mut Vec<usize>, height: u32, words: u32)
    requires { words ≤ vec_capacity stamps.old }
    ensures stamps { stamps.new.items ≡ stamps.old.items ++ replicate (min height words - length stamps.old.items) 0 }
    ensures room { vec_capacity stamps.new ≡ vec_capacity stamps.old }
{
    if stamps.len() < height as usize {
        grow(stamps, height.min(words));
    }
}
