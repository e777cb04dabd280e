//! The laws that the search rests on, beside those of the rules.

ghost use Rattle.rb_search.specs.Laws.{FirstIsLighter, JoinIsStrongest, JoinIsWeaker, TotalFalls, WeakerIsLighter};

/// Two entries meet in the strongest that is weaker than both.
pub fn joins_are_strongest()
    ensures weaker { JoinIsWeaker }
    ensures strongest { JoinIsStrongest }
{}

/// What is known at an address is weakened at most 514 times, as it has at most 512 operands: each time its weight falls, and so does the sum
/// of all weights.
pub fn weights_fall()
    ensures weaker { WeakerIsLighter }
    ensures first { FirstIsLighter }
    ensures total { TotalFalls }
{}
