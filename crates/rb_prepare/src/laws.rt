//! The laws of the code of accepted sources. These functions have no body, and each promises a law.

ghost use Rattle.rb_code.specs.Agreement.RoomInTree.{FewOperands};
ghost use Rattle.rb_judge.specs.Laws.{OfEveryAccepted};
ghost use Rattle.rb_prepare.specs.Laws.{AlwaysAgrees, HasCountsOfNest, IsSoundForGroups, OfEveryCode};

/// The expressions of an accepted source find room for their operands.
pub fn accepted_find_room()
    ensures { OfEveryAccepted FewOperands }
{}

/// Whatever code stands for an accepted source is sound, with the conversations of the source.
pub fn code_is_sound()
    ensures { OfEveryCode IsSoundForGroups }
{}

/// Each of its recovery blocks has as many alternates as the table of the source's conversations counts for it.
pub fn code_has_counts()
    ensures { OfEveryCode HasCountsOfNest }
{}

/// It agrees with the meaning of the source, over every list of turns.
pub fn code_agrees()
    ensures { OfEveryCode AlwaysAgrees }
{}
