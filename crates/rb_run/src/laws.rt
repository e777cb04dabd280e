//! The laws of runs of the code of accepted sources.

ghost use Rattle.rb_run.specs.Laws.{NothingTakenBack};

/// No receipt stands of a message that was taken back: in every world that a run of the code of an accepted source comes to, the receiver of
/// a channel has taken at most as many messages as it can see of what the sender has sent.
pub fn nothing_taken_back()
    ensures { NothingTakenBack }
{}
