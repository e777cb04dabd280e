//! The words of a line of a schedule, a record, a session or a history.

ghost use Rattle.std.specs.Prelude.{◌≡◌, ◌-◌, ◌≤◌, length};
ghost use Rattle.rb_sched.specs.Schedule.{is_space};
ghost use Rattle.std.specs.List.{prefix_len};
ghost use Rattle.rb_why.specs.Words.{after_spaces, after_word, from_word, is_of_word, words_line, word_at};

use rb_frame::lines::line_at;
use rb_sched::words::{without_comment, without_cr};

/// The line of this number without its comment and its CR.
pub(crate) fn words_line(text: &[u8], line: u32) -> &[u8]
    ensures { result.now ≡ words_line text.now line }
{
    without_comment(without_cr(line_at(text, line)))
}

/// The line from its word of this number on, from 0.
pub(crate) fn from_word(line: &[u8], number: u32) -> &[u8]
    ensures rest { result.now ≡ from_word number line.now }
    ensures within { length result.now ≤ length line.now }
{
    let mut rest = line;
    let mut left = number;
    while left > 0 {
        rest = after_word(after_spaces(rest));
        left -= 1;
    }
    after_spaces(rest)
}

/// The word of this number, from 0; nothing where the line has no such word.
pub(crate) fn word_at(line: &[u8], number: u32) -> &[u8]
    ensures { result.now ≡ word_at line.now number }
{
    let rest = from_word(line, number);
    &rest[..word_len(rest)]
}

// How many bytes the word at the front has.
fn word_len(line: &[u8]) -> usize
    ensures { result ≡ prefix_len is_of_word line.now }
{
    line.iter().take_while(|b| is_of_word(**b)).count()
}

fn is_of_word(b: u8) -> bool
    ensures { result ≡ is_of_word b }
{
    b != b' ' && b != b'\t'
}

// What stands behind the spaces at the front.
fn after_spaces(line: &[u8]) -> &[u8]
    ensures rest { result.now ≡ after_spaces line.now }
    ensures within { length result.now ≤ length line.now }
{
    let mut rest = line;
    while let [byte, after @ ..] = rest {
        if is_of_word(*byte) {
            return rest;
        }
        rest = after;
    }
    rest
}

// What stands behind the word at the front.
fn after_word(line: &[u8]) -> &[u8]
    ensures rest { result.now ≡ after_word line.now }
    ensures within { length result.now ≤ length line.now }
{
    let mut rest = line;
    while let [byte, after @ ..] = rest {
        if !is_of_word(*byte) {
            return rest;
        }
        rest = after;
    }
    rest
}
