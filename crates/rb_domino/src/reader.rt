//! What was read of a history so far, with its names found by two maps.

ghost use Rattle.std.specs.Prelude.{◌≡◌, ◌+◌, ◌-◌, ◌^◌, ◌<◌, ◌≤◌, ◌∷◌, ◌++◌, [], true, false, vec_len, Some, None, Ok, MatchResult, OnOk};
ghost use Rattle.rb_sched.specs.Schedule.{words_of};
ghost use Rattle.rb_domino.specs.History.{no_story, is_short_name, is_word, has_failed, is_taken, process_of, message_of, read_words, read_process, read_point, read_send, read_take, read_fail, before_failure, sends};
ghost use Rattle.rb_domino.specs.Reading.{Stands, Takes, story_of};

use crate::line::{Line, Message};
use rb_base::bytes::is_name;
use rb_base::{FaultName, LONGEST_NAME, Memory, Text};
use rb_sched::words::{next_word, without_comment, without_cr};
use std::alloc::{AllocFailed, Global};
use std::collections::BTreeMap;

/// Why a line was not taken.
#[derive(Clone, Copy)]
pub(crate) enum LineRefusal {
    Fault(FaultName),
    Memory,
}

/// A history up to a line. The maps give the number of each name, and `taken` says which messages were taken.
#[derive(Drop)]
pub(crate) struct Reader<'a> {
    processes: Vec<Text>,
    messages: Vec<Message>,
    lines: Vec<Line>,
    process_numbers: BTreeMap<&'a [u8], u32>,
    message_numbers: BTreeMap<&'a [u8], u32>,
    taken: Vec<bool>,
    failed: bool,
}

impl<'a> Reader<'a> {
    /// Before the first line.
    pub(crate) fn new(alloc: Global) -> Self
        ensures empty { story_of result ≡ no_story }
        ensures stands { Stands result }
    {
        Reader {
            processes: Vec::new(alloc),
            messages: Vec::new(alloc),
            lines: Vec::new(alloc),
            process_numbers: BTreeMap::new(alloc),
            message_numbers: BTreeMap::new(alloc),
            taken: Vec::new(alloc),
            failed: false,
        }
    }

    /// Whether a process has failed.
    pub(crate) fn has_failed(&self) -> bool
        ensures { result ≡ self.now.failed }
    {
        self.failed
    }

    /// The processes, the messages and the lines.
    pub(crate) fn into_parts(self) -> (Vec<Text>, Vec<Message>, Vec<Line>)
        ensures processes { result.0 ≡ self.entry.processes }
        ensures messages { result.1 ≡ self.entry.messages }
        ensures lines { result.2 ≡ self.entry.lines }
    {
        (self.processes, self.messages, self.lines)
    }

    /// Takes one line more, or answers its fault with the least number.
    pub(crate) fn read_line(&mut self, alloc: Global, line: &'a [u8]) -> Result<(), LineRefusal>
        requires stands { Stands self.old }
        requires few { vec_len self.old.lines < 2 ^ 32 - 1 }
        ensures takes { Takes (read_words (story_of self.old) (words_of line.now)) self.new result }
        ensures grows { vec_len self.new.lines ≤ vec_len self.old.lines + 1 }
    {
        let Some((verb, rest)) = next_word(without_comment(without_cr(line))) else {
            return Ok(());
        };
        let Some((name, rest)) = next_word(rest) else {
            return Err(LineRefusal::Fault(FaultName::H1));
        };
        let Some((from, rest)) = next_word(rest) else {
            return self.read_two(alloc, verb, name);
        };
        let Some((to, rest)) = next_word(rest) else {
            return Err(LineRefusal::Fault(FaultName::H1));
        };
        if next_word(rest).is_some() {
            return Err(LineRefusal::Fault(FaultName::H1));
        }
        self.read_four(alloc, verb, name, from, to)
    }

    fn read_two(&mut self, alloc: Global, verb: &[u8], name: &'a [u8]) -> Result<(), LineRefusal>
        requires stands { Stands self.old }
        requires few { vec_len self.old.lines < 2 ^ 32 - 1 }
        ensures takes { Takes (read_words (story_of self.old) (verb.now ∷ name.now ∷ [])) self.new result }
        ensures grows { vec_len self.new.lines ≤ vec_len self.old.lines + 1 }
    {
        if !is_short_name(name) {
            return Err(LineRefusal::Fault(FaultName::H1));
        }
        if is_word(verb, b"process") {
            self.read_process(alloc, name)
        } else if is_word(verb, b"point") {
            self.read_point(name)
        } else if is_word(verb, b"take") {
            self.read_take(name)
        } else if is_word(verb, b"fail") {
            self.read_fail(name)
        } else {
            Err(LineRefusal::Fault(FaultName::H1))
        }
    }

    fn read_four(
        &mut self,
        alloc: Global,
        verb: &[u8],
        message: &'a [u8],
        from: &[u8],
        to: &[u8],
    ) -> Result<(), LineRefusal>
        requires stands { Stands self.old }
        requires few { vec_len self.old.lines < 2 ^ 32 - 1 }
        ensures takes { Takes (read_words (story_of self.old) (verb.now ∷ message.now ∷ from.now ∷ to.now ∷ [])) self.new result }
        ensures grows { vec_len self.new.lines ≤ vec_len self.old.lines + 1 }
    {
        if !is_word(verb, b"send")
            || !is_short_name(message)
            || !is_short_name(from)
            || !is_short_name(to)
        {
            return Err(LineRefusal::Fault(FaultName::H1));
        }
        self.read_send(alloc, message, from, to)
    }

    fn read_process(&mut self, alloc: Global, name: &'a [u8]) -> Result<(), LineRefusal>
        requires stands { Stands self.old }
        requires few { vec_len self.old.lines < 2 ^ 32 - 1 }
        ensures takes { Takes (before_failure (story_of self.old) (read_process (story_of self.old) name.now)) self.new result }
        ensures grows { vec_len self.new.lines ≤ vec_len self.old.lines + 1 }
    {
        if self.process(name).is_some() {
            return Err(LineRefusal::Fault(FaultName::H3));
        }
        self.before_failure()?;
        let number = self.processes.len() as u32;
        self.process_numbers.insert(name, number)?;
        self.processes.push(Text::from_slice(alloc, name)?)?;
        add_line(&mut self.lines, Line::Begin(number))
    }

    fn read_point(&mut self, name: &[u8]) -> Result<(), LineRefusal>
        requires stands { Stands self.old }
        requires few { vec_len self.old.lines < 2 ^ 32 - 1 }
        ensures takes { Takes (before_failure (story_of self.old) (read_point (story_of self.old) name.now)) self.new result }
        ensures grows { vec_len self.new.lines ≤ vec_len self.old.lines + 1 }
    {
        let process = self.known_process(name)?;
        self.before_failure()?;
        add_line(&mut self.lines, Line::Point(process))
    }

    fn read_send(
        &mut self,
        alloc: Global,
        name: &'a [u8],
        from: &[u8],
        to: &[u8],
    ) -> Result<(), LineRefusal>
        requires stands { Stands self.old }
        requires few { vec_len self.old.lines < 2 ^ 32 - 1 }
        ensures takes { Takes (before_failure (story_of self.old) (read_send (story_of self.old) name.now from.now to.now)) self.new result }
        ensures grows { vec_len self.new.lines ≤ vec_len self.old.lines + 1 }
    {
        let sender = self.known_process(from)?;
        let receiver = self.known_process(to)?;
        if self.message(name).is_some() {
            return Err(LineRefusal::Fault(FaultName::H3));
        }
        self.before_failure()?;
        self.add_message(alloc, name, sender, receiver)
    }

    // A message that has no number yet, and the line of its `send`.
    fn add_message(
        &mut self,
        alloc: Global,
        name: &'a [u8],
        sender: u32,
        receiver: u32,
    ) -> Result<(), LineRefusal>
        requires stands { Stands self.old }
        requires few { vec_len self.old.lines < 2 ^ 32 - 1 }
        requires quiet { has_failed (story_of self.old) ≡ false }
        requires unknown { message_of (story_of self.old) name.now ≡ None }
        requires sender { sender < vec_len self.old.processes }
        requires receiver { receiver < vec_len self.old.processes }
        ensures takes { Takes (Ok (sends (story_of self.old) name.now sender receiver)) self.new result }
        ensures grows { vec_len self.new.lines ≤ vec_len self.old.lines + 1 }
    {
        let number = self.messages.len() as u32;
        let sent = self.lines.len() as u32;
        self.message_numbers.insert(name, number)?;
        let name = Text::from_slice(alloc, name)?;
        self.messages.push(Message {
            name,
            sender,
            receiver,
            sent,
        })?;
        self.taken.push(false)?;
        add_line(&mut self.lines, Line::Send(number))
    }

    fn read_take(&mut self, name: &[u8]) -> Result<(), LineRefusal>
        requires stands { Stands self.old }
        requires few { vec_len self.old.lines < 2 ^ 32 - 1 }
        ensures takes { Takes (before_failure (story_of self.old) (read_take (story_of self.old) name.now)) self.new result }
        ensures grows { vec_len self.new.lines ≤ vec_len self.old.lines + 1 }
    {
        let Some(message) = self.message(name) else {
            return Err(LineRefusal::Fault(FaultName::H4));
        };
        if self.is_taken(message) {
            return Err(LineRefusal::Fault(FaultName::H4));
        }
        self.before_failure()?;
        self.taken[message as usize] = true;
        add_line(&mut self.lines, Line::Take(message))
    }

    fn read_fail(&mut self, name: &[u8]) -> Result<(), LineRefusal>
        requires stands { Stands self.old }
        requires few { vec_len self.old.lines < 2 ^ 32 - 1 }
        ensures takes { Takes (before_failure (story_of self.old) (read_fail (story_of self.old) name.now)) self.new result }
        ensures grows { vec_len self.new.lines ≤ vec_len self.old.lines + 1 }
    {
        let process = self.known_process(name)?;
        self.before_failure()?;
        self.failed = true;
        add_line(&mut self.lines, Line::Fail(process))
    }

    // The number of the process of this name.
    fn process(&self, name: &[u8]) -> Option<u32>
        requires { Stands self.now }
        ensures { result ≡ process_of (story_of self.now) name.now }
    {
        self.process_numbers.get(name).copied()
    }

    // The number of the message of this name.
    fn message(&self, name: &[u8]) -> Option<u32>
        requires { Stands self.now }
        ensures { result ≡ message_of (story_of self.now) name.now }
    {
        self.message_numbers.get(name).copied()
    }

    // Whether a message was taken.
    fn is_taken(&self, m: u32) -> bool
        requires stands { Stands self.now }
        requires known { m < vec_len self.now.taken }
        ensures { result ≡ is_taken (story_of self.now) m }
    {
        self.taken[m as usize]
    }

    fn known_process(&self, name: &[u8]) -> Result<u32, LineRefusal>
        requires { Stands self.now }
        ensures { MatchResult result
            (λ process. process_of (story_of self.now) name.now ≡ Some process)
            (λ refusal. (process_of (story_of self.now) name.now ≡ None) × (refusal ≡ LineRefusal.Fault FaultName.H2)) }
    {
        self.process(name).ok_or(LineRefusal::Fault(FaultName::H2))
    }

    // Nothing follows a failure.
    fn before_failure(&self) -> Result<(), LineRefusal>
        requires { Stands self.now }
        ensures { MatchResult result
            (λ _. has_failed (story_of self.now) ≡ false)
            (λ refusal. (has_failed (story_of self.now) ≡ true) × (refusal ≡ LineRefusal.Fault FaultName.H5)) }
    {
        if self.failed {
            Err(LineRefusal::Fault(FaultName::H5))
        } else {
            Ok(())
        }
    }
}

// A line more.
fn add_line(lines: &mut Vec<Line>, line: Line) -> Result<(), LineRefusal>
    ensures added { MatchResult result (λ _. lines.new.items ≡ lines.old.items ++ line ∷ []) (λ refusal. refusal ≡ LineRefusal.Memory) }
    ensures len { OnOk result (vec_len lines.new ≡ vec_len lines.old + 1) }
    ensures grows { vec_len lines.new ≤ vec_len lines.old + 1 }
{
    lines.push(line)?;
    Ok(())
}

fn is_word(word: &[u8], text: &[u8]) -> bool
    ensures { result ≡ is_word text.now word.now }
{
    word == text
}

/// Whether a word is a name, and not too long.
fn is_short_name(word: &[u8]) -> bool
    ensures { result ≡ is_short_name word.now }
{
    is_name(word) && word.len() <= LONGEST_NAME
}

impl From<Memory> for LineRefusal {
    ghost use Rattle.rb_domino.specs.declared.reader.LineRefusal.TheVariants as refusals;

    ghost from_gives = { λ _ refusal. refusal ≡ refusals.Memory };

    fn from(_error: Memory) -> Self {
        LineRefusal::Memory
    }
}

impl<T: Drop> From<AllocFailed<T>> for LineRefusal {
    ghost use Rattle.rb_domino.specs.declared.reader.LineRefusal.TheVariants as refusals;

    ghost from_gives = { λ _ refusal. refusal ≡ refusals.Memory };

    fn from(_error: AllocFailed<T>) -> Self {
        LineRefusal::Memory
    }
}
