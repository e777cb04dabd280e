//! The lines of a text around a place.

ghost use Rattle.std.specs.Prelude.{◌≡◌, ◌-◌, ◌≤◌, length};
ghost use Rattle.std.specs.List.{prefix_len};
ghost use Rattle.rb_frame.specs.Lines.{after_line, after_lines, before, is_of_line, line_at};

use rb_base::Place;

/// The line of this number, from 1, without its LF; nothing where there is none.
pub fn line_at(text: &[u8], line: u32) -> &[u8]
    ensures { result.now ≡ line_at line text.now }
{
    let rest = after_lines(text, line.saturating_sub(1));
    &rest[..line_len(rest)]
}

/// The text before a place.
pub fn before(text: &[u8], place: Place) -> &[u8]
    ensures { result.now ≡ before text.now place }
{
    let rest = after_lines(text, place.line.saturating_sub(1));
    let column = place.column.saturating_sub(1) as usize;
    let end = (text.len() - rest.len()).saturating_add(column);
    &text[..end.min(text.len())]
}

// How many bytes stand before the first LF.
fn line_len(text: &[u8]) -> usize
    ensures { result ≡ prefix_len is_of_line text.now }
{
    text.iter().take_while(|b| is_of_line(**b)).count()
}

fn is_of_line(b: u8) -> bool
    ensures { result ≡ is_of_line b }
{
    b != b'\n'
}

// What stands behind so many lines.
fn after_lines(text: &[u8], lines: u32) -> &[u8]
    ensures rest { result.now ≡ after_lines lines text.now }
    ensures within { length result.now ≤ length text.now }
{
    let mut rest = text;
    let mut left = lines;
    while left > 0 {
        rest = after_line(rest);
        left -= 1;
    }
    rest
}

// What stands behind the first LF.
fn after_line(text: &[u8]) -> &[u8]
    ensures rest { result.now ≡ after_line text.now }
    ensures within { length result.now ≤ length text.now }
{
    let mut rest = text;
    while let [byte, after @ ..] = rest {
        if *byte == b'\n' {
            return after;
        }
        rest = after;
    }
    rest
}
