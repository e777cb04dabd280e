//! Laws of what a turn rejects and tells: how many events, what a rejection leaves alone, and that the members of a
//! conversation pass its test line together and go back together.

ghost use Rattle.rb_meaning.specs.Laws.{FewEvents, PassedTogether, RejectionsStayInside, TriedTogether};

/// A turn makes at most 32 rejections, and of at most 64 processes it tells at most 96 events.
pub fn few_events()
    ensures { FewEvents }
{}

/// A turn that is undone changes no other process than those inside the outermost conversation that it rejects; where it
/// rejects none, no other at all.
pub fn rejections_stay_inside()
    ensures { RejectionsStayInside }
{}

/// Members of a conversation pass its test line together, once all of them came to it, and go back to their recovery points
/// together (Randell 1975). In every turn all that are inside keep their levels, or none is left inside, or all are put back.
pub fn passed_together()
    ensures { PassedTogether }
{}

/// Members try alternates together: each open level of a conversation tries the conversation's present alternate, whenever it
/// was entered, and all of them have as many.
pub fn tried_together()
    ensures { TriedTogether }
{}
