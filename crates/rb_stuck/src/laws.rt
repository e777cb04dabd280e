//! Laws of stuck worlds. Their functions have no body, and promise the law.

ghost use Rattle.rb_stuck.specs.Laws.{CodeStandsAsMeant, StandingsAreTold, StuckCodeStays, StuckTreesStay};

/// A program that is stuck stays stuck: no turn changes more than turns used, up to the first in which a level is beyond its bound.
pub fn stuck_trees_stay()
    ensures { StuckTreesStay }
{}

/// So it is of sound code, in the word machine.
pub fn stuck_code_stays()
    ensures { StuckCodeStays }
{}

/// What is written of how the run of a program stands is so, and where it is so it is written. It is `ended` exactly where every process is
/// done or has failed. It is `open` exactly where the next turn of some process changes more than turns used. And it is `stuck`, and behind it
/// who waits for what, exactly where some process runs and the next turn of none changes more; nor do the turns that follow, up to the first
/// in which a level is beyond its bound.
pub fn standings_are_told()
    ensures { StandingsAreTold }
{}

/// The code of an accepted source stands as its tree does, after every list of turns.
pub fn code_stands_as_meant()
    ensures { CodeStandsAsMeant }
{}
