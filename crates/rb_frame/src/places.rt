//! Places that are one.

ghost use Rattle.std.specs.Prelude.{◌≡◌};
ghost use Rattle.rb_frame.specs.Places.{is_place};

use rb_base::Place;

/// Whether two places are one.
pub fn is_place(one: Place, other: Place) -> bool
    ensures { result ≡ is_place one other }
{
    one.line == other.line && one.column == other.column
}
