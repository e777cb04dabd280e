//! Laws of scopes: what holds of all trees. These functions have no body, and each promises a law.

ghost use Rattle.rb_scope.specs.Laws.{AcceptedAreWithinLimits, AcceptedHaveDistinctNames, AreJudged, HaveOneFirst, ResolvedInFrames, SlotsAreDetermined};

/// A program has no fault of scopes and limits, or one that is the first.
pub fn are_judged()
    ensures { AreJudged }
{}

/// No two faults of a program are both the first.
pub fn have_one_first()
    ensures { HaveOneFirst }
{}

/// Two lists of slots of one program agree at each name of it.
pub fn slots_are_determined()
    ensures { SlotsAreDetermined }
{}

/// In a program that is resolved each name stands for what the meaning finds under it.
pub fn resolved_in_frames()
    ensures { ResolvedInFrames }
{}

/// A program without a fault of scopes and limits is within the limits.
pub fn accepted_are_within_limits()
    ensures { AcceptedAreWithinLimits }
{}

/// The processes, channels and conversations of such a program have names of their own.
pub fn accepted_have_distinct_names()
    ensures { AcceptedHaveDistinctNames }
{}
