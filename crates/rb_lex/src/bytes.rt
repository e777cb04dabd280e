//! Which bytes are blanks, printable or in a comment, and how a place moves on past a byte.

ghost use Rattle.std.specs.Prelude.{◌≡◌, ◌+◌, ◌-◌, ◌≤◌, ◌<◌, ◌^◌};
ghost use Rattle.rb_lex.specs.Bytes.{
  is_blank,
  is_printable,
  is_comment_byte,
  place_after,
  columns_on,
};

use rb_base::Place;

pub(crate) fn is_blank(b: u8) -> bool
    ensures { result ≡ is_blank b }
{
    b == b' ' || b == b'\t' || b == b'\r' || b == b'\n'
}

pub(crate) fn is_printable(b: u8) -> bool
    ensures { result ≡ is_printable b }
{
    b >= b' ' && b <= b'~'
}

pub(crate) fn is_comment_byte(b: u8) -> bool
    ensures { result ≡ is_comment_byte b }
{
    is_printable(b) || b == b'\t' || b == b'\r'
}

// The place of the byte after this one.
pub(crate) fn place_after(place: Place, b: u8) -> Place
    requires { place.line + place.column < 2 ^ 32 - 1 }
    ensures { result ≡ place_after place b }
{
    if b == b'\n' {
        Place {
            line: place.line + 1,
            column: 1,
        }
    } else {
        columns_on(place, 1)
    }
}

// So many bytes further on one line.
pub(crate) fn columns_on(place: Place, count: usize) -> Place
    requires { place.column + count < 2 ^ 32 }
    ensures { result ≡ columns_on place count }
{
    Place {
        line: place.line,
        column: place.column + count as u32,
    }
}
