//! A history that is read whole for its faults: its processes, its messages and its lines.

ghost use Rattle.std.specs.Prelude.{◌≡◌, ◌≤◌, length, Ok, IfOk, MatchResult, OnOk};
ghost use Rattle.rb_domino.specs.History.{history_of, no_story, IsWhole};
ghost use Rattle.rb_domino.specs.Reading.{IsRefusedFor, Stands, story_of};

use crate::line::{Line, Message};
use crate::reader::{LineRefusal, Reader};
use rb_base::{FaultName, MOST_BYTES, Text, TextFault};
use rb_sched::words::first_line;
use std::alloc::Global;
use std::marker::Model;

/// Why a history was not taken.
#[derive(Clone, Copy)]
pub enum HistoryRefusal {
    /// The first fault of the text.
    Fault(TextFault),
    Memory,
}

/// What processes did up to the failure of one of them. Contracts see the names of the processes, the messages, and the
/// lines that aren't empty.
pub struct History {
    processes: Vec<Text>,
    messages: Vec<Message>,
    lines: Vec<Line>,
}

impl Drop for History {
    fn drop(self) {
        let History {
            processes: _,
            messages: _,
            lines: _,
        } = self;
    }
}

impl Model for History {
    ghost use Rattle.rb_domino.specs.History.{Story, IsWhole};

    ghost Value = { Story };

    ghost view = { λ h. record { processes = h.processes.items; messages = h.messages.items; lines = h.lines.items } };

    ghost invariant = { λ h. IsWhole (record { processes = h.processes.items; messages = h.messages.items; lines = h.lines.items }) };
}

impl History {
    /// Reads a whole history, and answers its first fault where it has one.
    pub fn read(alloc: Global, text: &[u8]) -> Result<History, HistoryRefusal>
        requires { length text.now ≤ MOST_BYTES }
        ensures told { let told = history_of text.now in
            MatchResult result (λ history. told ≡ Ok history) (λ refusal. IsRefusedFor told refusal) }
        ensures whole { IfOk result (λ history. IsWhole history) }
    {
        let mut reader = Reader::new(alloc);
        read_lines(alloc, text, &mut reader)?;
        let (processes, messages, lines) = reader.into_parts();
        Ok(History {
            processes,
            messages,
            lines,
        })
    }

    /// The names of the processes.
    pub fn processes(&self) -> &[Text]
        ensures { result.now ≡ self.now.processes }
    {
        self.processes.as_slice()
    }

    /// The messages.
    pub fn messages(&self) -> &[Message]
        ensures { result.now ≡ self.now.messages }
    {
        self.messages.as_slice()
    }

    /// The lines that aren't empty.
    pub fn lines(&self) -> &[Line]
        ensures lines { result.now ≡ self.now.lines }
        ensures whole { IsWhole self.now }
    {
        self.lines.as_slice()
    }
}

#[tactic(auto, using(crate::proofs::ReadLines::read_more, crate::proofs::ReadLines::read_fault, crate::proofs::ReadLines::read_end))]
// Reads the lines of a whole history, of which none was read yet, or answers their first fault.
fn read_lines<'a>(
    alloc: Global,
    text: &'a [u8],
    reader: &mut Reader<'a>,
) -> Result<(), HistoryRefusal>
    requires empty { story_of reader.old ≡ no_story }
    requires stands { Stands reader.old }
    requires short { length text.now ≤ MOST_BYTES }
    ensures told { let told = history_of text.now in
        MatchResult result (λ _. told ≡ Ok (story_of reader.new)) (λ refusal. IsRefusedFor told refusal) }
    ensures whole { OnOk result (IsWhole (story_of reader.new)) }
{
    let mut at = 1;
    let mut rest = text;
    while !rest.is_empty() {
        let (line, after) = first_line(rest);
        match reader.read_line(alloc, line) {
            Ok(()) => {}
            Err(LineRefusal::Fault(name)) => return Err(fault(name, at)),
            Err(LineRefusal::Memory) => return Err(HistoryRefusal::Memory),
        }
        at += 1;
        rest = after;
    }
    if reader.has_failed() {
        Ok(())
    } else {
        Err(fault(FaultName::H5, at))
    }
}

fn fault(name: FaultName, at: u32) -> HistoryRefusal
    ensures { result ≡ HistoryRefusal.Fault (record { name = name; at = at }) }
{
    HistoryRefusal::Fault(TextFault { name, at })
}
