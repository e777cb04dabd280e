//! Laws of worlds at small kinds of process state. These functions have no body, and each promises a law.

ghost use Rattle.rb_world.specs.Samples.{CountsAreUnseen, MarksAreUnseen, MarksAreUnseenInRecords, CountedRunsStand, OutermostIsRejected};

/// Images of worlds, at a small kind of process state: steps that are counted beside it change nothing that is told.
#[tactic(auto, using(crate::proofs::Relating::Instances::counting_tells_same))]
pub fn counts_are_unseen()
    ensures { CountsAreUnseen }
{}

/// Related kinds, at a small one: to copy how many lines are held, and to cut them, tells what whole copies tell.
#[tactic(auto, using(crate::proofs::Relating::Instances::marks_tell_same))]
pub fn marks_are_unseen()
    ensures { MarksAreUnseen }
{}

/// The same of the plain run of every record.
#[tactic(auto, using(crate::proofs::Relating::Instances::marks_tell_same_plainly))]
pub fn marks_are_unseen_in_records()
    ensures { MarksAreUnseenInRecords }
{}

/// Induction over turns, at a small kind: its processes and conversations stay, none has more than 32 levels, and one that
/// failed has none.
pub fn counted_runs_stand()
    ensures { CountedRunsStand }
{}

/// Bounds, at a small kind: of the levels of a process that have no turn left, the next turn rejects the outermost.
pub fn outermost_is_rejected()
    ensures { OutermostIsRejected }
{}
