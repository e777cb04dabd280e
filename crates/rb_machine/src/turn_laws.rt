//! The laws of the machine's turns, over sound code and every list of turns.

ghost use Rattle.rb_machine.specs.TurnLaws.{PassedTogether, RejectionsStayInside};

/// A turn that is undone changes no other process than those inside the outermost conversation that it rejects; where it rejects none, no
/// other at all.
pub fn rejections_stay_inside()
    ensures { RejectionsStayInside }
{}

/// Members of a conversation pass its test line together, once each of them came to it, and go back together. In every turn all that are
/// inside at once keep their levels of it; or all pass the line; or all are back at their levels of it, each with what was copied at its
/// entry, and go on to the next alternate; or all are out of it, since a conversation around it was rejected, or it failed.
pub fn members_pass_together()
    ensures { PassedTogether }
{}
