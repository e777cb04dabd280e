//! What a name may stand for.

/// What a name of a source stands for. Processes, channels, conversations are numbered in the program, procedures in their
/// process, each from 0 in the order of declaration.
#[derive(Clone, Copy)]
pub enum Slot {
    /// The name of the program itself, which belongs to no scope.
    ProgramName,
    Process(u32),
    Channel(u32),
    Conversation(u32),
    Procedure(u32),
    /// A variable of the process: its first word among the words of these, and the number of elements of an array.
    Global { at: u32, size: Option<u32> },
    /// A parameter, or a variable of a block: its first word above the base of the running call, and the number of
    /// elements of an array.
    Local { at: u32, size: Option<u32> },
    /// The name of a quantified expression: how many quantified expressions stand around that one.
    Counter(u32),
}
