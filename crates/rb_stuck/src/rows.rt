//! Worked standings: what the definitions compute to, of programs after turns.

ghost use Rattle.rb_stuck.specs.Rows.{AllEnded, GoesOn, Deadlock, FromTheBeginning, NoRoom, AtTheLine, BoundNext, BehindTheBound, InsideABlock, MayGoOn};

/// What is written of each.
pub fn standings()
    ensures all_ended { AllEnded }
    ensures goes_on { GoesOn }
    ensures deadlock { Deadlock }
    ensures from_the_beginning { FromTheBeginning }
    ensures no_room { NoRoom }
    ensures at_the_line { AtTheLine }
    ensures bound_next { BoundNext }
    ensures behind_the_bound { BehindTheBound }
    ensures inside_a_block { InsideABlock }
    ensures may_go_on { MayGoOn }
{}
