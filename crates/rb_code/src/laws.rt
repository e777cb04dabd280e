//! The laws of code.

ghost use Rattle.rb_code.specs.Agreement.Laws.{CodeAgreesWithMeaning, SoundCodeAgreesWithMeaning};
ghost use Rattle.rb_code.specs.Agreement.OneCode.{OneCodeStands, OneCodeWithSlots};
ghost use Rattle.rb_code.specs.SoundCode.ReachedDecided.{ReachedIsDecided};
ghost use Rattle.rb_code.specs.SoundCode.SoundLaws.{
  CodeOfTreesIsSound,
  SoundRunsEnd,
  SoundRunsStand,
  SoundSettlingIsSafe,
  SoundSettlingStands,
  SoundStepsAreSafe,
  SoundStepsEnd,
  SoundStepsStand,
  StandingHasSettled,
};
ghost use Rattle.rb_code.specs.SoundCode.Stays.{SoundSettlingStays, SoundStepsStay};

/// Sound code is executed safely: a step of a process that stands in its table finds at each instruction what that needs, and where the
/// turn may be given up nothing was changed.
pub fn sound_steps_are_safe()
    ensures { SoundStepsAreSafe }
{}

/// Such a step comes to an end.
pub fn sound_steps_end()
    ensures { SoundStepsEnd }
{}

/// Where it ends the process stands again.
pub fn sound_steps_stand()
    ensures { SoundStepsStand }
{}

/// What stands between two turns of sound code is executed safely, and neither traps nor accepts; then the process stands, and it has
/// settled.
pub fn sound_settling_stands()
    ensures safe { SoundSettlingIsSafe }
    ensures stands { SoundSettlingStands }
    ensures settled { StandingHasSettled }
{}

/// Within a turn of sound code there are never fewer calls than at the entry of the innermost level, and always a word; and cursors are
/// used as the turn found them.
pub fn sound_turns_stay()
    ensures steps { SoundStepsStay }
    ensures settling { SoundSettlingStays }
{}

/// In every run of code that has a table each process stands in it, and what it executes comes to an end.
pub fn sound_runs_stand()
    ensures stand { SoundRunsStand }
    ensures end { SoundRunsEnd }
{}

/// Code agrees with the meaning: what stands for a tree and has a table tells, over every list of turns, what the meaning tells, and in the
/// end both are in the same state, process by process.
pub fn sound_code_agrees_with_meaning()
    ensures { SoundCodeAgreesWithMeaning }
{}

/// The code of every tree that is resolved, within the limits and nested, and whose expressions need few operands, has a table.
pub fn code_of_trees_is_sound()
    ensures { CodeOfTreesIsSound }
{}

/// So the code of every such tree agrees with the tree's meaning.
pub fn code_agrees_with_meaning()
    ensures { CodeAgreesWithMeaning }
{}

/// One code stands for a tree whose recovery blocks are numbered: what stands for it with the same slots is the same code, to the number of
/// each text and the entry of each recovery block. Of a tree that is resolved the slots make no difference.
pub fn one_code_stands()
    ensures with_slots { OneCodeWithSlots }
    ensures stands { OneCodeStands }
{}

/// Each address of an instruction is reached, or it is not.
pub fn reached_is_decided()
    ensures { ReachedIsDecided }
{}
