//! Worked sessions: for each, the text that is written of it, or its first fault, is what the definitions compute to.

ghost use Rattle.rb_back.specs.Rows.{Rejection, Entry, FromEndToEnd, NothingShown, EmptyText, Comments, RejectedConversation, PassedConversation, Failed, Received};
ghost use Rattle.rb_back.specs.Rows.{UnknownVerb, WithoutNumber, TwoNumbers, NoTurns, TooMany, NoNumber, NoName, UnknownProcess, PastTheLast, PastTheFirst, TheGreatest, FirstOfLines};

/// What is shown, each time at its position.
pub fn sessions()
    ensures rejection { Rejection }
    ensures entry { Entry }
    ensures from_end_to_end { FromEndToEnd }
    ensures nothing_shown { NothingShown }
    ensures empty_text { EmptyText }
    ensures comments { Comments }
    ensures rejected_conversation { RejectedConversation }
    ensures passed_conversation { PassedConversation }
    ensures failed { Failed }
    ensures received { Received }
{}

/// Texts that are no sessions.
pub fn first_faults()
    ensures unknown_verb { UnknownVerb }
    ensures without_number { WithoutNumber }
    ensures two_numbers { TwoNumbers }
    ensures no_turns { NoTurns }
    ensures too_many { TooMany }
    ensures no_number { NoNumber }
    ensures no_name { NoName }
    ensures unknown_process { UnknownProcess }
    ensures past_the_last { PastTheLast }
    ensures past_the_first { PastTheFirst }
    ensures the_greatest { TheGreatest }
    ensures first_of_lines { FirstOfLines }
{}
