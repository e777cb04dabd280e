//! Worked histories: for each, the text that is written of it, or its first fault, is what the definitions compute to.

ghost use Rattle.rb_domino.specs.Rows.{Domino, WithoutLastMessage, Uncontrolled, GivenAgain, ToTheFailed, PointBehindTake, WithoutMessages, Alone, FailsAtOnce, ByTheirTakes, ToOneself};
ghost use Rattle.rb_domino.specs.Rows.{UnknownWord, StrayReturn, LongName, UnknownProcess, LeastOfLine, TwoOfOneName, TakenByNobody, TakenTwice, BehindFailure, FaultBehindFailure, NoFailure, EmptyText};

/// Which states are given up, by which messages, and which are left.
pub fn recovery_lines()
    ensures domino { Domino }
    ensures without_last_message { WithoutLastMessage }
    ensures uncontrolled { Uncontrolled }
    ensures given_again { GivenAgain }
    ensures to_the_failed { ToTheFailed }
    ensures point_behind_take { PointBehindTake }
    ensures without_messages { WithoutMessages }
    ensures alone { Alone }
    ensures fails_at_once { FailsAtOnce }
    ensures by_their_takes { ByTheirTakes }
    ensures to_oneself { ToOneself }
{}

/// Texts that are no histories.
pub fn first_faults()
    ensures unknown_word { UnknownWord }
    ensures stray_return { StrayReturn }
    ensures long_name { LongName }
    ensures unknown_process { UnknownProcess }
    ensures least_of_line { LeastOfLine }
    ensures two_of_one_name { TwoOfOneName }
    ensures taken_by_nobody { TakenByNobody }
    ensures taken_twice { TakenTwice }
    ensures behind_failure { BehindFailure }
    ensures fault_behind_failure { FaultBehindFailure }
    ensures no_failure { NoFailure }
    ensures empty_text { EmptyText }
{}
