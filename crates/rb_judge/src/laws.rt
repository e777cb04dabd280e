//! Laws of verdicts, and what holds of the tree of every accepted source. These functions have no body, and each promises a law.

ghost use Rattle.rb_meaning.specs.Nesting.{IsNested};
ghost use Rattle.rb_meaning.specs.Laws.{HasNestedLevels, HoldsMessagesInSlots, IsAlwaysErased, IsErasedInText, KeepsRejectionsInside, PassesTogether, ReadsFromSlots, TakesNothingBack, TriesTogether};
ghost use Rattle.rb_scope.specs.Limits.{HasDistinctNames, IsWithinLimits};
ghost use Rattle.rb_scope.specs.Spelled.{IsSpelled};
ghost use Rattle.rb_judge.specs.HasAlternates.{HasAlternates};
ghost use Rattle.rb_judge.specs.Laws.{HaveVerdicts, HaveOneVerdict, IsShallow, OfEveryAccepted, ParsedAreNumbered, ParsedHaveOwnNumbers};

/// Each source is accepted or refused.
pub fn have_verdicts()
    ensures { HaveVerdicts }
{}

/// It is not both, and in one way only.
pub fn have_one_verdict()
    ensures { HaveOneVerdict }
{}

/// The names of the tree of a text have numbers of their own, each below the number of names.
pub fn parsed_have_own_numbers()
    ensures { ParsedHaveOwnNumbers }
{}

/// The recovery blocks of the tree of a text are numbered from 0 in their order.
pub fn parsed_are_numbered()
    ensures { ParsedAreNumbered }
{}

/// An accepted source is nested as the laws of the meaning ask.
pub fn accepted_are_nested()
    ensures { OfEveryAccepted IsNested }
{}

/// It is within the limits: its lists are short, and its sizes and turn bounds lie in their ranges.
pub fn accepted_are_within_limits()
    ensures { OfEveryAccepted IsWithinLimits }
{}

/// Its processes, channels and conversations have names of their own.
pub fn accepted_have_distinct_names()
    ensures { OfEveryAccepted HasDistinctNames }
{}

/// Its declared names are names of at most 64 bytes and no reserved words of its edition, and its texts hold at most 256, none of which is a quote or unprintable.
pub fn accepted_are_spelled()
    ensures { OfEveryAccepted IsSpelled }
{}

/// At most 901 of its statements and expressions stand inside each other.
pub fn accepted_are_shallow()
    ensures { OfEveryAccepted IsShallow }
{}

/// Erasure: what survived a run, run alone with nothing ever rejected, ends the same.
pub fn accepted_are_erased()
    ensures { OfEveryAccepted IsAlwaysErased }
{}

/// So the text of that plain run has the lines that the run released, and its values.
pub fn accepted_are_erased_in_text()
    ensures { OfEveryAccepted IsErasedInText }
{}

/// No receipt stands of a message that was taken back.
pub fn accepted_take_nothing_back()
    ensures { OfEveryAccepted TakesNothingBack }
{}

/// A rejection changes no process outside the outermost conversation that is rejected.
pub fn accepted_keep_rejections_inside()
    ensures { OfEveryAccepted KeepsRejectionsInside }
{}

/// Members of a conversation pass its test line together, and go back together.
pub fn accepted_pass_together()
    ensures { OfEveryAccepted PassesTogether }
{}

/// Whoever is inside a conversation tries its present alternate.
pub fn accepted_try_together()
    ensures { OfEveryAccepted TriesTogether }
{}

/// A level of a conversation has its parent's level right outside it.
pub fn accepted_have_nested_levels()
    ensures { OfEveryAccepted HasNestedLevels }
{}

/// Each message that may still be asked for lies in its slot.
pub fn accepted_hold_messages_in_slots()
    ensures { OfEveryAccepted HoldsMessagesInSlots }
{}

/// A run that reads messages from their slots is the same.
pub fn accepted_read_from_slots()
    ensures { OfEveryAccepted ReadsFromSlots }
{}

/// Each of its recovery blocks has an alternate.
pub fn accepted_have_alternates()
    ensures { OfEveryAccepted HasAlternates }
{}
