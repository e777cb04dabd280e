//! What holds of every plain run.

ghost use Rattle.rb_plain.specs.Played.{UnnotedTurnsTellSame};
ghost use Rattle.rb_plain.specs.Stuck.{StuckTurnsAreFound};

/// A plain run in which no turn is noted has the text of one that notes them: it prints the same and ends in the same values, or is stuck at
/// the same turn.
pub fn unnoted_turns_tell_same()
    ensures { UnnotedTurnsTellSame }
{}

/// Where the plain run of turns that rise is stuck, the turn and the cause that are told are those of the turn which can't be taken.
pub fn stuck_turns_are_found()
    ensures { StuckTurnsAreFound }
{}
