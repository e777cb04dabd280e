//! The laws of the meaning, of every nested program and every list of turns.

ghost use Rattle.rb_meaning.specs.Laws.{Erasure, ErasureInText, LevelsAreNested, NothingTakenBack};
ghost use Rattle.rb_meaning.specs.Laws.{SlotsAreRead, SlotsAreUnseen, SlotsHoldMessages};

/// Levels are nested: a level of a conversation has its parent's level just outside it (Randell 1975). And unless a process
/// has failed, its levels are those of the starts and tests that are left of its text.
pub fn levels_are_nested()
    ensures { LevelsAreNested }
{}

/// Erasure: the survivors of a run, run alone with nothing ever rejected, are not stuck, end in the same states, and release the
/// same lines in the same turns. So an alternate that failed leaves no trace (Horning, Lauer, Melliar-Smith, Randell 1974).
pub fn erasure()
    ensures { Erasure }
{}

/// So the text of the survivors' plain run has the lines that the run released, and the run's values.
pub fn erasure_in_text()
    ensures { ErasureInText }
{}

/// No receipt stands of a message that was taken back.
pub fn nothing_taken_back()
    ensures { NothingTakenBack }
{}

/// Slots of channels, written beside the messages, change nothing that is told.
pub fn slots_are_unseen()
    ensures { SlotsAreUnseen }
{}

/// In every world of a run each message that may still be asked for lies in its slot: message number k of a channel of size n in
/// slot k modulo n. No recovery point holds slots, and no rejection writes one.
pub fn slots_hold_messages()
    ensures { SlotsHoldMessages }
{}

/// So a run that reads messages from their slots is the same.
pub fn slots_are_read()
    ensures { SlotsAreRead }
{}
