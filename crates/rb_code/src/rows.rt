//! Worked codes: for each, what the definitions of the listing and of the word machine compute to, and whether it is sound.

ghost use Rattle.rb_code.specs.SoundCode.Reached.{Reached};
ghost use Rattle.rb_code.specs.WordMachine.Rows.{ConversationRun, OneRejectionListing, OneRejectionRun, SmallestListing, SmallestRun};
ghost use Rattle.rb_code.specs.SoundCode.SoundRows.{IsTabled, IsUntabled, MiscountedAlternates, OneNameForTwo, ReservedNames, ThirdCounter, alternate_before_its_start, jump_between_procedures, jump_into_a_loop, jump_over_an_entry, message_behind_fail, overlapping_loops, small_loop, two_ways_back};

/// How two programs are listed.
pub fn listings()
    ensures smallest { SmallestListing }
    ensures one_rejection { OneRejectionListing }
{}

/// What the runs of three programs print.
pub fn word_runs()
    ensures smallest { SmallestRun }
    ensures one_rejection { OneRejectionRun }
    ensures conversation { ConversationRun }
{}

/// Codes that have a table.
pub fn tabled_codes()
    ensures small_loop { IsTabled small_loop }
    ensures overlapping_loops { IsTabled overlapping_loops }
    ensures message_behind_fail { IsTabled message_behind_fail }
    ensures alternate_before_its_start { IsTabled alternate_before_its_start }
{}

/// Codes that have none.
pub fn untabled_codes()
    ensures jump_between_procedures { IsUntabled jump_between_procedures }
    ensures two_ways_back { IsUntabled two_ways_back }
    ensures jump_into_a_loop { IsUntabled jump_into_a_loop }
{}

/// What is not reached, not counted and not named as sound code asks.
pub fn unsound_lists()
    ensures unreached { Reached jump_over_an_entry 1 → ⊥ }
    ensures miscounted { MiscountedAlternates }
    ensures reserved { ReservedNames }
    ensures one_name { OneNameForTwo }
    ensures third_counter { ThirdCounter }
{}
