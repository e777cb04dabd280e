//! The held lines as they are looked at: how many, and the last of them.

ghost use Rattle.std.specs.Prelude.{◌≡◌, ◌<◌, ◌≤◌, ◌-◌, drop, length, slice_get, option_copied, Some};
ghost use Rattle.rb_base.specs.declared.limits.TheConstants.{MOST_HELD_BYTES};
ghost use Rattle.rb_hold.specs.Held.{IsLine};
ghost use Rattle.rb_hold.specs.Stored.{lines_in, AreLines};

use super::{Hold, count_lines};

impl Hold {
    /// How many lines are held.
    pub fn held_lines(&self) -> u32
        ensures count { result ≡ length self.now.held }
        ensures few { result ≤ MOST_HELD_BYTES }
    {
        count_lines(&self.lines[..self.held])
    }

    /// The held lines as they are stored, one after another, each with LF behind it.
    pub fn held_text(&self) -> &[u8]
        ensures lines { lines_in result.now ≡ self.now.held }
        ensures stored { AreLines result.now }
    {
        &self.lines[..self.held]
    }

    /// The line that is held last, if one is.
    pub fn last_held(&self) -> Option<&[u8]>
        ensures { option_copied result ≡ slice_get self.now.held (length self.now.held - 1) }
    {
        last_line(&self.lines[..self.held])
    }
}

// The last of stored lines, if there is one.
fn last_line(bytes: &[u8]) -> Option<&[u8]>
    requires { AreLines bytes.now }
    ensures { option_copied result ≡ slice_get (lines_in bytes.now) (length (lines_in bytes.now) - 1) }
{
    let count = bytes.len();
    if count == 0 {
        return None;
    }
    let end = count - 1;
    let start = start_of_last(&bytes[..end]);
    Some(&bytes[start..end])
}

// Where the last line begins whose own LF is left out: behind the last LF.
fn start_of_last(bytes: &[u8]) -> usize
    ensures within { result ≤ length bytes.now }
    ensures line { IsLine (drop result bytes.now) }
    ensures behind { 0 < result → slice_get bytes.now (result - 1) ≡ Some 10 }
{
    let mut start = bytes.len();
    'back: while start > 0 {
        if bytes[start - 1] == b'\n' {
            return start;
        }
        start -= 1;
    }
    start
}
