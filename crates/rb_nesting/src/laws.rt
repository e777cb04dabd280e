//! Laws of nesting: what holds of all trees. These functions have no body, and each promises a law.

ghost use Rattle.rb_nest.specs.Laws.{AcceptedAreNested, AreJudged, HaveOneFirst};

/// A program without a fault of nesting is nested as the laws of the meaning ask, so all of these hold of it.
pub fn accepted_are_nested()
    ensures { AcceptedAreNested }
{}

/// A program has no fault of nesting, or one that is the first.
pub fn are_judged()
    ensures { AreJudged }
{}

/// No two faults of a program are both the first.
pub fn have_one_first()
    ensures { HaveOneFirst }
{}
