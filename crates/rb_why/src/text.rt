//! Why a schedule, a record, a session or a history is refused, in words.

ghost use Rattle.std.specs.Prelude.{◌≡◌, [], option_map, IfOk};
ghost use Rattle.rb_why.specs.Meant.{meant_or};
ghost use Rattle.rb_why.specs.Text.{is_about_process, is_about_word, line_words, names_process, process_meant, subject, text_told, told_word, with_processes, word_place, word_words};

use crate::bytes::{carriage_return_sentence, has_cr, has_order_mark, order_mark_sentence};
use crate::likeness::reads_like_source;
use crate::listed::{process_texts, processes_listed};
use crate::meant::nearest_told;
use crate::phrases::sentence;
use crate::words::{from_word, word_at, words_line};
use rb_base::{FaultName, MOST_BYTES, Memory, Names, Place, TextFault};
use rb_frame::frame::frame_with;
use rb_frame::joined::joined;
use std::alloc::Global;

/// Why a text of this file is refused for the fault of one of its lines, with a mark under the word that it is about. The names are those
/// of the processes that the text may speak of, where there are some.
pub fn text_reason(
    alloc: Global,
    file: &[u8],
    text: &[u8],
    names: Option<&Names>,
    fault: TextFault,
) -> Result<Vec<u8>, Memory>
    ensures { IfOk result (λ told. told.items ≡ text_told file.now text.now (option_map (λ n. n.now) names.entry) fault) }
{
    let words = line_sentence(alloc, text, names, fault)?;
    let place = word_place(text, fault.at, told_word(fault.name));
    let meant = process_told(alloc, words_line(text, fault.at), names, fault.name)?;
    frame_with(
        alloc,
        file,
        text,
        place,
        fault.name.word(),
        words.as_slice(),
        meant.as_slice(),
    )
}

// The process that was meant, where a fault is about a name that none has.
fn process_told(
    alloc: Global,
    line: &[u8],
    names: Option<&Names>,
    name: FaultName,
) -> Result<Vec<u8>, Memory>
    ensures { IfOk result (λ told. told.items ≡ meant_or (process_meant line.now (option_map (λ n. n.now) names.entry) name) []) }
{
    let Some(names) = names else {
        return Ok(Vec::new(alloc));
    };
    if !is_about_process(name) {
        return Ok(Vec::new(alloc));
    }
    let others = process_texts(alloc, names)?;
    nearest_told(alloc, subject(line, name), others.as_slice())
}

/// The place of a word of a line, from 0.
pub(crate) fn word_place(text: &[u8], line: u32, number: u32) -> Place
    ensures { result ≡ word_place text.now line number }
{
    let words = words_line(text, line);
    // no text has a column above the most bytes
    let passed = (words.len() - from_word(words, number).len()).min(MOST_BYTES);
    Place {
        line,
        column: passed as u32 + 1,
    }
}

// Which word of its line a fault is about, from 0.
fn told_word(name: FaultName) -> u32
    ensures { result ≡ told_word name }
{
    match name {
        FaultName::T3 | FaultName::V2 | FaultName::B2 => 1,
        _ => 0,
    }
}

// What the sentence about a fault of a line names, if it names a word.
fn subject(line: &[u8], name: FaultName) -> &[u8]
    ensures { result.now ≡ subject line.now name }
{
    if is_about_word(name) {
        word_at(line, told_word(name))
    } else {
        &[]
    }
}

// Whether the sentence about a fault names a word of its line.
fn is_about_word(name: FaultName) -> bool
    ensures { result ≡ is_about_word name }
{
    matches!(
        name,
        FaultName::T2 | FaultName::T3 | FaultName::V2 | FaultName::V3 | FaultName::B2
    )
}

/// Whether a text with a fault of this name speaks of the processes of a program, as a schedule, a record and a session do: so that why it
/// is refused is told with their names.
pub fn names_process(name: FaultName) -> bool
    ensures { result ≡ names_process name }
{
    matches!(
        name,
        FaultName::T1
            | FaultName::T2
            | FaultName::T3
            | FaultName::T4
            | FaultName::V1
            | FaultName::V2
            | FaultName::V3
            | FaultName::B1
            | FaultName::B2
            | FaultName::B3
    )
}

// Whether a fault is about a name that no process has.
fn is_about_process(name: FaultName) -> bool
    ensures { result ≡ is_about_process name }
{
    matches!(name, FaultName::T2 | FaultName::V2 | FaultName::B2)
}

// The sentence about a fault of a line.
fn line_sentence(
    alloc: Global,
    text: &[u8],
    names: Option<&Names>,
    fault: TextFault,
) -> Result<Vec<u8>, Memory>
    ensures { IfOk result (λ words. words.items ≡ line_words text.now (option_map (λ n. n.now) names.entry) fault) }
{
    if fault.at == 1 && has_order_mark(text) {
        return order_mark_sentence(alloc);
    }
    if reads_like_source(text, names) {
        return joined(
            alloc,
            &[b"this reads like a source, and another text is wanted here"],
        );
    }
    let line = words_line(text, fault.at);
    if has_cr(line) {
        return carriage_return_sentence(alloc);
    }
    word_sentence(alloc, line, names, fault.name)
}

// The sentence about the word that a fault is about.
fn word_sentence(
    alloc: Global,
    line: &[u8],
    names: Option<&Names>,
    name: FaultName,
) -> Result<Vec<u8>, Memory>
    ensures { IfOk result (λ words. words.items ≡ word_words line.now (option_map (λ n. n.now) names.entry) name) }
{
    let words = sentence(alloc, name, subject(line, name))?;
    if is_about_process(name) {
        with_processes(alloc, words, names)
    } else {
        Ok(words)
    }
}

// The sentence with the processes that there are.
fn with_processes(alloc: Global, words: Vec<u8>, names: Option<&Names>) -> Result<Vec<u8>, Memory>
    ensures { IfOk result (λ told. told.items ≡ with_processes words.items (option_map (λ n. n.now) names.entry)) }
{
    let Some(names) = names else {
        return Ok(words);
    };
    let listed = processes_listed(alloc, names)?;
    joined(
        alloc,
        &[words.as_slice(), b", which has ", listed.as_slice()],
    )
}
