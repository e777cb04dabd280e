//! Worked rows: for each, the text of a whole run, or of a record, is what the definitions compute to. A change of a
//! definition that changes what one of these programs means is refused here.

ghost use Rattle.rb_meaning.specs.Rows.Blocks.{Smallest, Empty, OneRejection, Merge, PriorAcrossAMerge, Exhausted, TheBound, OuterBound, TwoBounds, AsAUserWritesIt, Cascade, InsideACall, HeldLines, NothingToPrint};
ghost use Rattle.rb_meaning.specs.Rows.Limits.{TrapsInTurn, OpenCalls, CallsBeforeWords, HeldBytes, FailOutside, FullProcess, FullBlocks, FullBlocksOfEdition2, OpenLevels};
ghost use Rattle.rb_meaning.specs.Rows.Values.{ShortCircuit, Division, Comparisons, IndexFirst, Scopes, Arguments, Choices, Quantified, LongRange, LongestRange, StopsEarly};
ghost use Rattle.rb_meaning.specs.Rows.Messages.{PrivateMessage, SlotNotFree, SlotLeftOpen, RoomOutside, SeenOutside, ReceivedAgain, TwoChannels, MaybeReceived, MaybeReceivedElement, IndexOfReceipt, WaitFirst, EndOfWait};
ghost use Rattle.rb_meaning.specs.Rows.Conversations.{OneConversation, LateMember, NestedConversation, BrokenConversation, BrokenForThree, OverrunAtTheLine, ExhaustedInside, UndoneInside, FirstAgain, FirstAgainFurther, FewerInside, PrivateInside, NotYetInside, FullChannelInside};
ghost use Rattle.rb_meaning.specs.Rows.Nested.{ConversationIsNested, ConversationInConversationIsNested, PrivateMessageIsNested, ConverseInEnsureIsNotNested};
ghost use Rattle.rb_meaning.specs.Rows.Survivors.{SurvivorsOfOneRejection, SurvivorsOfExhausted, SurvivorsOfAPrivateMessage, SurvivorsOfAConversation, SurvivorsOfMaybeReceived, PlainOneRejection, PlainExhausted, PlainPrivateMessage, PlainConversation, PlainNestedConversation, PlainMaybeReceived, PlainFullChannelInside, PlainNotYetInside, PlainFewerInside, PlainRecord, PlainLeftOpen, StuckAtTest, StuckWithoutAlternate, StuckWithAThirdAlternate, StuckWithAnAlternate, StuckWhenDone, StuckAtAWait, StuckAtATrap, StuckWithoutRoom, StuckAtTheLine};

/// Recovery blocks of one process.
pub fn blocks()
    ensures smallest { Smallest }
    ensures empty { Empty }
    ensures one_rejection { OneRejection }
    ensures merge { Merge }
    ensures prior_across_a_merge { PriorAcrossAMerge }
    ensures exhausted { Exhausted }
    ensures the_bound { TheBound }
    ensures outer_bound { OuterBound }
    ensures two_bounds { TwoBounds }
    ensures as_a_user_writes_it { AsAUserWritesIt }
    ensures cascade { Cascade }
    ensures inside_a_call { InsideACall }
    ensures held_lines { HeldLines }
    ensures nothing_to_print { NothingToPrint }
{}

/// Traps and limits.
pub fn limits()
    ensures traps_in_turn { TrapsInTurn }
    ensures open_calls { OpenCalls }
    ensures calls_before_words { CallsBeforeWords }
    ensures held_bytes { HeldBytes }
    ensures fail_outside { FailOutside }
    ensures full_process { FullProcess }
    ensures full_blocks { FullBlocks }
    ensures full_blocks_of_edition_2 { FullBlocksOfEdition2 }
    ensures open_levels { OpenLevels }
{}

/// Expressions, indices and scopes.
pub fn values()
    ensures short_circuit { ShortCircuit }
    ensures division { Division }
    ensures comparisons { Comparisons }
    ensures index_first { IndexFirst }
    ensures scopes { Scopes }
    ensures arguments { Arguments }
    ensures choices { Choices }
    ensures quantified { Quantified }
    ensures long_range { LongRange }
    ensures longest_range { LongestRange }
    ensures stops_early { StopsEarly }
{}

/// Messages, and what may be undone of them.
pub fn messages()
    ensures private_message { PrivateMessage }
    ensures slot_not_free { SlotNotFree }
    ensures slot_left_open { SlotLeftOpen }
    ensures room_outside { RoomOutside }
    ensures seen_outside { SeenOutside }
    ensures received_again { ReceivedAgain }
    ensures two_channels { TwoChannels }
    ensures maybe_received { MaybeReceived }
    ensures maybe_received_element { MaybeReceivedElement }
    ensures index_of_receipt { IndexOfReceipt }
    ensures wait_first { WaitFirst }
    ensures end_of_wait { EndOfWait }
{}

/// Conversations.
pub fn conversations()
    ensures one_conversation { OneConversation }
    ensures late_member { LateMember }
    ensures nested_conversation { NestedConversation }
    ensures broken_conversation { BrokenConversation }
    ensures broken_for_three { BrokenForThree }
    ensures overrun_at_the_line { OverrunAtTheLine }
    ensures exhausted_inside { ExhaustedInside }
    ensures undone_inside { UndoneInside }
    ensures first_again { FirstAgain }
    ensures first_again_further { FirstAgainFurther }
    ensures fewer_inside { FewerInside }
    ensures private_inside { PrivateInside }
    ensures not_yet_inside { NotYetInside }
    ensures full_channel_inside { FullChannelInside }
{}

/// Survivors, and the plain runs of records.
pub fn survivors()
    ensures survivors_of_one_rejection { SurvivorsOfOneRejection }
    ensures survivors_of_exhausted { SurvivorsOfExhausted }
    ensures survivors_of_a_private_message { SurvivorsOfAPrivateMessage }
    ensures survivors_of_a_conversation { SurvivorsOfAConversation }
    ensures survivors_of_maybe_received { SurvivorsOfMaybeReceived }
    ensures plain_one_rejection { PlainOneRejection }
    ensures plain_exhausted { PlainExhausted }
    ensures plain_private_message { PlainPrivateMessage }
    ensures plain_conversation { PlainConversation }
    ensures plain_nested_conversation { PlainNestedConversation }
    ensures plain_maybe_received { PlainMaybeReceived }
    ensures plain_full_channel_inside { PlainFullChannelInside }
    ensures plain_not_yet_inside { PlainNotYetInside }
    ensures plain_fewer_inside { PlainFewerInside }
    ensures plain_record { PlainRecord }
    ensures plain_left_open { PlainLeftOpen }
    ensures stuck_at_test { StuckAtTest }
    ensures stuck_without_alternate { StuckWithoutAlternate }
    ensures stuck_with_a_third_alternate { StuckWithAThirdAlternate }
    ensures stuck_with_an_alternate { StuckWithAnAlternate }
    ensures stuck_when_done { StuckWhenDone }
    ensures stuck_at_a_wait { StuckAtAWait }
    ensures stuck_at_a_trap { StuckAtATrap }
    ensures stuck_without_room { StuckWithoutRoom }
    ensures stuck_at_the_line { StuckAtTheLine }
{}

/// Programs that keep the rules of nesting, and one that does not.
pub fn nested_rows()
    ensures conversation { ConversationIsNested }
    ensures conversation_in_conversation { ConversationInConversationIsNested }
    ensures private_message { PrivateMessageIsNested }
    ensures converse_in_ensure { ConverseInEnsureIsNotNested }
{}
