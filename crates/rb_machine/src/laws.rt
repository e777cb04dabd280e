//! The laws of the machine.

ghost use Rattle.rb_machine.specs.Machine.{MachineIsWordMachine};
ghost use Rattle.rb_recovery.specs.Rising.{SoundSettlingKeeps, SoundStepsRaise};

/// A step of a process that stands in the table of sound code raises the cursor of each of its channels by at most one, and lowers none;
/// where its acceptance test held it leaves all words as they are. Settling leaves all cursors as they are.
pub fn cursors_rise_by_one()
    ensures steps { SoundStepsRaise }
    ensures settling { SoundSettlingKeeps }
{}

/// Over every list of turns a machine that was loaded comes to the world of the word machine, which copies a process whole at each entry,
/// and tells what that tells.
pub fn machine_is_word_machine()
    ensures { MachineIsWordMachine }
{}
