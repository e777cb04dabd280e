//! Laws of the table of conversations. Its functions do nothing, and each promises a law.

ghost use Rattle.rb_conv.specs.Laws.{AllStandByEach, MembersStay, OthersStay, PlacesAreExact, TalksAreTheWorlds};

/// At the opening and after each call the table has the alternates and the broken marks that a world has.
pub fn talks_are_the_worlds()
    ensures { TalksAreTheWorlds }
{}

/// No call changes who the members of a conversation are, or which conversation is around it.
pub fn members_stay()
    ensures { MembersStay }
{}

/// Who is inside a conversation, and who stands at its test line, after each change of it.
pub fn places_are_exact()
    ensures { PlacesAreExact }
{}

/// A change of one conversation leaves the others, and a rejection empties those below and no others.
pub fn others_stay()
    ensures { OthersStay }
{}

/// All members stand at the test line exactly where each declared member does.
pub fn all_stand_by_each()
    ensures { AllStandByEach }
{}
