//! Worked traces: what the definitions compute to, of a program over its first turns.

ghost use Rattle.rb_picture.specs.Rows.{FirstTurns, Rejection};

/// What is written of them.
pub fn traces()
    ensures first_turns { FirstTurns }
    ensures rejection { Rejection }
{}
