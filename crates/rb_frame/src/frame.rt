//! What is written of a fault: where it is and what is wrong, the line with a mark under the place, and where more is told.

ghost use Rattle.std.specs.Prelude.{◌≡◌, ◌++◌, ◌≤◌, length, take, codes, IfOk};
ghost use Rattle.rb_frame.specs.Frame.{before_column, before_mark, dots, framed, framed_alone, framed_with, headed, helped, left_out, marked, next_step, noted, numbered, pointed, shown_line, window};

use crate::joined::{joined, shown, under};
use crate::lines::line_at;
use itoa::Buffer;
use rb_base::{Memory, Place};
use rb_sched::words::without_cr;
use std::alloc::Global;

/// The most bytes of a line that are shown.
const MOST_SHOWN: usize = 160;
/// A longer line is shown from its front on where the place is among so many columns.
const FRONT_COLUMNS: u32 = 120;
/// And else from so many bytes before the place on.
const SHOWN_BEFORE: usize = 80;

/// A fault at a place of a text: its file, its place, its name and one sentence; the line with its number; a mark under the place; and
/// where more is told.
pub fn frame(
    alloc: Global,
    file: &[u8],
    text: &[u8],
    place: Place,
    name: &[u8],
    sentence: &[u8],
) -> Result<Vec<u8>, Memory>
    ensures { IfOk result (λ told. told.items ≡ framed file.now text.now place name.now sentence.now) }
{
    frame_with(alloc, file, text, place, name, sentence, b"")
}

/// The same with remarks before it is told where more is told.
pub fn frame_with(
    alloc: Global,
    file: &[u8],
    text: &[u8],
    place: Place,
    name: &[u8],
    sentence: &[u8],
    remarks: &[u8],
) -> Result<Vec<u8>, Memory>
    ensures { IfOk result (λ told. told.items ≡ framed_with file.now text.now place name.now sentence.now remarks.now) }
{
    let head = headed(alloc, file, place, name, sentence)?;
    let pointed = shown_at(alloc, text, place)?;
    let next = next_step(alloc, name)?;
    behind_head(
        alloc,
        head.as_slice(),
        pointed.as_slice(),
        remarks,
        next.as_slice(),
    )
}

// The references of one list have one lifetime.
fn behind_head<'w>(
    alloc: Global,
    head: &'w [u8],
    pointed: &'w [u8],
    remarks: &'w [u8],
    next: &'w [u8],
) -> Result<Vec<u8>, Memory>
    ensures { IfOk result (λ told. told.items ≡ head.now ++ (pointed.now ++ (remarks.now ++ next.now))) }
{
    joined(alloc, &[head, pointed, remarks, next])
}

/// What is written in place of what stands there.
pub fn help(alloc: Global, words: &[u8]) -> Result<Vec<u8>, Memory>
    ensures { IfOk result (λ told. told.items ≡ helped words.now) }
{
    joined(alloc, &[b"help: ", words, b"\n"])
}

/// A remark about another place of the text, with its line and a mark.
pub fn note(alloc: Global, text: &[u8], place: Place, words: &[u8]) -> Result<Vec<u8>, Memory>
    ensures { IfOk result (λ told. told.items ≡ noted text.now place words.now) }
{
    let pointed = shown_at(alloc, text, place)?;
    note_over(alloc, words, pointed.as_slice())
}

fn note_over<'w>(alloc: Global, words: &'w [u8], pointed: &'w [u8]) -> Result<Vec<u8>, Memory>
    ensures { IfOk result (λ told. told.items ≡ codes "note: " ++ (words.now ++ (codes "\n" ++ pointed.now))) }
{
    joined(alloc, &[b"note: ", words, b"\n", pointed])
}

// The line of a place with its number, and a mark under the place.
fn shown_at(alloc: Global, text: &[u8], place: Place) -> Result<Vec<u8>, Memory>
    ensures { IfOk result (λ told. told.items ≡ pointed place.line place.column (shown_line text.now place.line)) }
{
    pointed(alloc, place, without_cr(line_at(text, place.line)))
}

/// A fault that has no place.
pub fn frame_alone(
    alloc: Global,
    file: &[u8],
    name: &[u8],
    sentence: &[u8],
) -> Result<Vec<u8>, Memory>
    ensures { IfOk result (λ told. told.items ≡ framed_alone file.now name.now sentence.now) }
{
    let next = next_step(alloc, name)?;
    alone(alloc, file, name, sentence, next.as_slice())
}

// The references of one list have one lifetime.
fn alone<'w>(
    alloc: Global,
    file: &'w [u8],
    name: &'w [u8],
    sentence: &'w [u8],
    next: &'w [u8],
) -> Result<Vec<u8>, Memory>
    ensures { IfOk result (λ told. told.items ≡ file.now ++ (codes ": " ++ (name.now ++ (codes ": " ++ (sentence.now ++ (codes "\n" ++ next.now)))))) }
{
    joined(alloc, &[file, b": ", name, b": ", sentence, b"\n", next])
}

// The file and the place, the name and the sentence.
fn headed(
    alloc: Global,
    file: &[u8],
    place: Place,
    name: &[u8],
    sentence: &[u8],
) -> Result<Vec<u8>, Memory>
    ensures { IfOk result (λ told. told.items ≡ headed file.now place name.now sentence.now) }
{
    let mut lines = Buffer::new();
    let mut columns = Buffer::new();
    let line = lines.format(place.line).as_bytes();
    let column = columns.format(place.column).as_bytes();
    head(alloc, file, line, column, name, sentence)
}

fn head<'w>(
    alloc: Global,
    file: &'w [u8],
    line: &'w [u8],
    column: &'w [u8],
    name: &'w [u8],
    sentence: &'w [u8],
) -> Result<Vec<u8>, Memory>
    ensures { IfOk result (λ told. told.items ≡
        file.now ++ (codes ":" ++ (line.now ++ (codes ":" ++ (column.now ++ (codes ": " ++ (name.now ++ (codes ": " ++ (sentence.now ++ codes "\n"))))))))) }
{
    joined(
        alloc,
        &[
            file, b":", line, b":", column, b": ", name, b": ", sentence, b"\n",
        ],
    )
}

// A line with its number, as much of it as is shown, and the mark under the place.
#[tactic(auto, unfolding(crate::specs::Frame::pointed))]
fn pointed(alloc: Global, place: Place, line: &[u8]) -> Result<Vec<u8>, Memory>
    ensures { IfOk result (λ told. told.items ≡ pointed place.line place.column line.now) }
{
    let left = left_out(place.column, line);
    let bytes = window(alloc, line, left)?;
    let shown = numbered(alloc, place.line, bytes.as_slice())?;
    let before = before_mark(alloc, before_column(place.column, line), left)?;
    let mark = marked(alloc, place.line, before.as_slice())?;
    joined(alloc, &[shown.as_slice(), mark.as_slice()])
}

// How many bytes at the front of a line are left out where the place has this column.
fn left_out(column: u32, line: &[u8]) -> usize
    ensures left { result ≡ left_out column line.now }
    ensures within { result ≤ length (before_column column line.now) }
    ensures of_line { result ≤ length line.now }
{
    if line.len() <= MOST_SHOWN || column <= FRONT_COLUMNS {
        0
    } else {
        before_column(column, line)
            .len()
            .saturating_sub(SHOWN_BEFORE)
    }
}

// What stands of a line before a column.
fn before_column(column: u32, line: &[u8]) -> &[u8]
    ensures { result.now ≡ before_column column line.now }
{
    front(line, column.saturating_sub(1) as usize)
}

// The bytes of a line that are shown.
fn window(alloc: Global, line: &[u8], left: usize) -> Result<Vec<u8>, Memory>
    requires { left ≤ length line.now }
    ensures { IfOk result (λ bytes. bytes.items ≡ window left line.now) }
{
    let rest = &line[left..];
    between(
        alloc,
        dots(left > 0),
        front(rest, MOST_SHOWN),
        dots(rest.len() > MOST_SHOWN),
    )
}

// Those of them that stand before the place.
fn before_mark(alloc: Global, before: &[u8], left: usize) -> Result<Vec<u8>, Memory>
    requires { left ≤ length before.now }
    ensures { IfOk result (λ bytes. bytes.items ≡ before_mark left before.now) }
{
    between(alloc, dots(left > 0), &before[left..], b"")
}

// So many bytes at the front, or all where there are fewer.
fn front(bytes: &[u8], most: usize) -> &[u8]
    ensures { result.now ≡ take most bytes.now }
{
    &bytes[..most.min(bytes.len())]
}

// What tells that something is left out.
fn dots(something: bool) -> &'static [u8]
    ensures { result.now ≡ dots something }
{
    if something { b"..." } else { b"" }
}

// Bytes between two others.
fn between<'w>(
    alloc: Global,
    front: &'w [u8],
    bytes: &'w [u8],
    end: &'w [u8],
) -> Result<Vec<u8>, Memory>
    ensures { IfOk result (λ told. told.items ≡ front.now ++ (bytes.now ++ end.now)) }
{
    joined(alloc, &[front, bytes, end])
}

// Bytes of a line with its number.
fn numbered(alloc: Global, number: u32, bytes: &[u8]) -> Result<Vec<u8>, Memory>
    ensures { IfOk result (λ told. told.items ≡ numbered number bytes.now) }
{
    let mut lines = Buffer::new();
    let number = lines.format(number).as_bytes();
    let line = shown(alloc, bytes)?;
    behind(alloc, number, line.as_slice(), b"\n")
}

// The mark behind these bytes of a line with its number.
fn marked(alloc: Global, number: u32, bytes: &[u8]) -> Result<Vec<u8>, Memory>
    ensures { IfOk result (λ told. told.items ≡ marked number bytes.now) }
{
    let mut lines = Buffer::new();
    let number = under(alloc, lines.format(number).as_bytes())?;
    let blanks = under(alloc, bytes)?;
    behind(alloc, number.as_slice(), blanks.as_slice(), b"^\n")
}

// What stands behind a number, and its end.
fn behind<'w>(
    alloc: Global,
    number: &'w [u8],
    text: &'w [u8],
    end: &'w [u8],
) -> Result<Vec<u8>, Memory>
    ensures { IfOk result (λ told. told.items ≡ number.now ++ (codes " | " ++ (text.now ++ end.now))) }
{
    joined(alloc, &[number, b" | ", text, end])
}

// Where more is told of a fault.
fn next_step(alloc: Global, name: &[u8]) -> Result<Vec<u8>, Memory>
    ensures { IfOk result (λ told. told.items ≡ next_step name.now) }
{
    joined(alloc, &[b"next: rblview explain ", name, b"\n"])
}
