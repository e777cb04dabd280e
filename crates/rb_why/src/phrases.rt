//! The fixed words of the sentence about each fault, around what it is about.

ghost use Rattle.std.specs.Prelude.{◌≡◌, ◌++◌, IfOk};
ghost use Rattle.rb_why.specs.Phrases.{back_words, front_words, sentence};

use rb_base::{FaultName, Memory};
use rb_frame::joined::joined;
use std::alloc::Global;

/// The sentence about a fault, with what it is about: a name, a word or a number of the text.
pub(crate) fn sentence(alloc: Global, name: FaultName, subject: &[u8]) -> Result<Vec<u8>, Memory>
    ensures { IfOk result (λ words. words.items ≡ sentence name subject.now) }
{
    around(alloc, front_words(name), subject, back_words(name))
}

/// Bytes between two others; the references of one list have one lifetime.
pub(crate) fn around<'w>(
    alloc: Global,
    front: &'w [u8],
    subject: &'w [u8],
    back: &'w [u8],
) -> Result<Vec<u8>, Memory>
    ensures { IfOk result (λ words. words.items ≡ front.now ++ (subject.now ++ back.now)) }
{
    joined(alloc, &[front, subject, back])
}

// The words before what a sentence is about.
fn front_words(name: FaultName) -> &'static [u8]
    ensures { result.now ≡ front_words name }
{
    match name {
        FaultName::X1 => b"no token, blank, comment or text has the byte ",
        FaultName::X2 => b"this text has no closing quote on its line",
        FaultName::X3 => b"this number is above 9,223,372,036,854,775,807, which is the largest",
        FaultName::X4 => b"this text has more than 256 bytes between its quotes",
        FaultName::X5 => b"this name has more than 64 bytes",
        FaultName::Y1 => b"`",
        FaultName::Y2 => b"`",
        FaultName::S1 => b"no scope around this place declares `",
        FaultName::S2 => b"`",
        FaultName::S3 => b"`",
        FaultName::S4 => b"this call of `",
        FaultName::S5 => b"`",
        FaultName::S6 => b"`",
        FaultName::S7 => b"`",
        FaultName::S8 => b"`",
        FaultName::S9 => b"`",
        FaultName::S10 => b"with `",
        FaultName::S11 => b"`",
        FaultName::N1 => b"the `converse` for `",
        FaultName::N2 => b"this process is no member of `",
        FaultName::N3 => b"`",
        FaultName::N4 => b"`",
        FaultName::N5 => b"this `converse` for `",
        FaultName::N6 => b"`",
        FaultName::N7 => b"this process has a second `converse` for `",
        FaultName::N8 => b"a message goes over `",
        FaultName::N9 => b"this process is not at this end of `",
        FaultName::N10 => b"`",
        FaultName::N11 => b"a conversation has two or more members, each named once, and at `",
        FaultName::N12 => b"both ends of this channel are `",
        FaultName::N13 => b"`",
        FaultName::T1 => b"a line of a schedule is a process or `all`, and a count",
        FaultName::T2 => b"`",
        FaultName::T3 => b"`",
        FaultName::T4 => b"with this line the turns are more than 1,000,000",
        FaultName::V1 =>
            b"a line of a record is a turn, a process and, at a start, an alternate, each number from 1 to 1,000,000",
        FaultName::V2 => b"`",
        FaultName::V3 => b"turn `",
        FaultName::V4 => b"this turn cannot be taken",
        FaultName::B1 =>
            b"a line of a session is `step N`, `back N` or `show P`, with N from 1 to 1,000,000",
        FaultName::B2 => b"`",
        FaultName::B3 => b"this goes past the last turn of the schedule, or back past the first",
        FaultName::H1 =>
            b"a line of a history is `process P`, `point P`, `send M P Q`, `take M` or `fail P`, with names of at most 64 bytes",
        FaultName::H2 => b"this line names a process that no line before it declares",
        FaultName::H3 =>
            b"this line declares a process or sends a message under a name that was used before",
        FaultName::H4 =>
            b"this line takes a message that was not sent before, or was taken already",
        FaultName::H5 => b"a history ends with its one line `fail P`",
        FaultName::I1 =>
            b"the bytes are no image: they end too early or too late, or a number is out of its range",
        FaultName::I2 => b"the image is not sound: its code may do what no compiled source does",
    }
}

// The words behind it.
fn back_words(name: FaultName) -> &'static [u8]
    ensures { result.now ≡ back_words name }
{
    match name {
        FaultName::X1 => b" here",
        FaultName::X2 => b"",
        FaultName::X3 => b"",
        FaultName::X4 => b"",
        FaultName::X5 => b"",
        FaultName::Y1 => b"` cannot stand here",
        FaultName::Y2 => b"` would be the 101st bracket that is open here, and 100 are the most",
        FaultName::S1 => b"`",
        FaultName::S2 => b"` is declared a second time in this scope",
        FaultName::S3 => b"` is of another kind than this place wants",
        FaultName::S4 => b"` has another number of arguments than the procedure has parameters",
        FaultName::S5 => b"` stands outside an acceptance test",
        FaultName::S6 => b"` is no size of an array, which has 1 to 1,024 elements",
        FaultName::S7 => b"` is one more than a list of this kind may have",
        FaultName::S8 => b"` is no size of a channel, which holds 1 to 65,536 messages",
        FaultName::S9 => b"` is no turn bound, which is from 1 to 1,000,000",
        FaultName::S10 =>
            b"` the variables of this process are more numbers than it may have: 2,048, in edition 2 4,096",
        FaultName::S11 => b"` stands within two other quantified expressions",
        FaultName::N1 => b"` stands inside an `ensure` or in a procedure",
        FaultName::N2 => b"`",
        FaultName::N3 => b"` stands inside a conversation that lacks one of its members",
        FaultName::N4 => b"` stands inside another conversation here than at its first `converse`",
        FaultName::N5 => b"` has another number of alternates than the first one",
        FaultName::N6 => b"` is a member of this conversation and has no `converse` for it",
        FaultName::N7 => b"`",
        FaultName::N8 => b"` in a procedure, and only the text of a process sends and receives",
        FaultName::N9 => b"`",
        FaultName::N10 => b"` has an end that is no member of the conversation around this place",
        FaultName::N11 => b"` that does not hold",
        FaultName::N12 => b"`",
        FaultName::N13 => b"` stands inside eight other conversations",
        FaultName::T1 => b"",
        FaultName::T2 => b"` is no process of this program",
        FaultName::T3 => b"` is no count, which is from 1 to 1,000,000",
        FaultName::T4 => b"",
        FaultName::V1 => b"",
        FaultName::V2 => b"` is no process of this program",
        FaultName::V3 => b"` is not above that of the line before",
        FaultName::V4 => b"",
        FaultName::B1 => b"",
        FaultName::B2 => b"` is no process of this program",
        FaultName::B3 => b"",
        FaultName::H1 => b"",
        FaultName::H2 => b"",
        FaultName::H3 => b"",
        FaultName::H4 => b"",
        FaultName::H5 => b"",
        FaultName::I1 => b"",
        FaultName::I2 => b"",
    }
}
