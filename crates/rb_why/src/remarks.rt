//! What is told beside the sentence about a fault of a source.

ghost use Rattle.std.specs.Prelude.{◌≡◌, ◌≤◌, [], cond, length, map, option_map, IfOk};
ghost use Rattle.rb_lex.specs.Reader.{lexeme_of};
ghost use Rattle.rb_why.specs.Remarks.{ends_all, has_habits, help_or, is_about_token, is_unknown, line_end, meant_told, missing_told, open_told, outer_words, remarks, remarks_behind, stray_remarks, word_told};

use crate::bytes::from_place;
use crate::habits::{Spot, habit_words};
use crate::listed::is_among;
use crate::meant::{meant_among, meant_or, statement_meant};
use crate::named::{name_told, note_of};
use crate::open::{innermost_open, last_token, text_of};
use crate::seconds::second_place;
use crate::tokens::{token_text, tokens_of};
use rb_base::{FaultName, MOST_BYTES, Memory, Place, SourceFault};
use rb_frame::frame::help;
use rb_frame::joined::joined;
use rb_frame::lines::before;
use rb_lex::Token;
use std::alloc::Global;

/// The remarks about a fault, where these may stand at its place.
pub(crate) fn remarks(
    alloc: Global,
    source: &[u8],
    fault: SourceFault,
    may: &[&'static [u8]],
) -> Result<Vec<u8>, Memory>
    requires { length source.now ≤ MOST_BYTES }
    ensures { IfOk result (λ told. told.items ≡ remarks source.now fault (map (λ token. token.now) may.now)) }
{
    let tokens = tokens_of(alloc, before(source, fault.place))?;
    if has_habits(fault.name) {
        remarks_behind(alloc, source, fault, tokens.as_slice(), may)
    } else {
        let here = token_text(source, fault.place);
        second_place(alloc, source, fault.name, here, tokens.as_slice())
    }
}

// Those about a fault behind these tokens.
fn remarks_behind<'a>(
    alloc: Global,
    source: &'a [u8],
    fault: SourceFault,
    tokens: &[Token<'a>],
    may: &[&'static [u8]],
) -> Result<Vec<u8>, Memory>
    requires { length source.now ≤ MOST_BYTES }
    ensures { IfOk result (λ told. told.items ≡
        remarks_behind source.now fault (map lexeme_of tokens.now) (map (λ token. token.now) may.now)) }
{
    let spot = Spot {
        before: text_of(last_token(tokens)),
        may,
        token: token_text(source, fault.place),
        bytes: from_place(source, fault.place),
    };
    let meant = meant_told(alloc, source, fault.name, spot.token, tokens, may)?;
    let habit = help_or(alloc, habit_words(spot), meant.as_slice())?;
    let stray = if_stray(alloc, source, fault, tokens, may)?;
    joined(alloc, &[habit.as_slice(), stray.as_slice()])
}

// Those about a token that can't stand there, if it is one.
fn if_stray(
    alloc: Global,
    source: &[u8],
    fault: SourceFault,
    tokens: &[Token<'_>],
    may: &[&'static [u8]],
) -> Result<Vec<u8>, Memory>
    requires { length source.now ≤ MOST_BYTES }
    ensures { IfOk result (λ told. told.items ≡ cond (is_about_token fault.name)
        (stray_remarks source.now fault (map lexeme_of tokens.now) (map (λ token. token.now) may.now)) []) }
{
    if !is_about_token(fault.name) {
        return Ok(Vec::new(alloc));
    }
    let open = open_told(alloc, source, fault, tokens)?;
    let missing = missing_told(alloc, source, fault.place, last_token(tokens), may)?;
    joined(alloc, &[open.as_slice(), missing.as_slice()])
}

// A `{` that is still open where a process should have ended.
fn open_told(
    alloc: Global,
    source: &[u8],
    fault: SourceFault,
    tokens: &[Token<'_>],
) -> Result<Vec<u8>, Memory>
    requires { length source.now ≤ MOST_BYTES }
    ensures { IfOk result (λ told. told.items ≡ open_told source.now fault (map lexeme_of tokens.now)) }
{
    if !ends_all(source, fault.place) {
        return Ok(Vec::new(alloc));
    }
    let place = innermost_open(alloc, tokens)?;
    note_of(alloc, source, place, b"this `{` is still open")
}

// Whether a process should have ended at a place: the source does, or what stands outside of all processes begins.
fn ends_all(source: &[u8], place: Place) -> bool
    requires { length source.now ≤ MOST_BYTES }
    ensures { result ≡ ends_all source.now place }
{
    from_place(source, place).is_empty() || is_among(outer_words(), token_text(source, place))
}

// A `;` that may be missing at the end of a line before.
fn missing_told(
    alloc: Global,
    source: &[u8],
    place: Place,
    last: Option<Token<'_>>,
    may: &[&'static [u8]],
) -> Result<Vec<u8>, Memory>
    ensures { IfOk result (λ told. told.items ≡
        missing_told source.now place (option_map lexeme_of last.entry) (map (λ token. token.now) may.now)) }
{
    if is_among(may, b";") {
        note_of(
            alloc,
            source,
            line_end(place, last),
            b"a `;` may be missing behind this",
        )
    } else {
        Ok(Vec::new(alloc))
    }
}

// The place of the last token, where it stands on a line before.
fn line_end(place: Place, last: Option<Token<'_>>) -> Option<Place>
    ensures { result ≡ line_end place (option_map lexeme_of last.entry) }
{
    let token = last?;
    if token.place.line < place.line {
        Some(token.place)
    } else {
        None
    }
}

// What was meant by a token that can't stand here, or by a name that nothing declares.
fn meant_told<'a>(
    alloc: Global,
    source: &'a [u8],
    name: FaultName,
    here: &[u8],
    tokens: &[Token<'a>],
    may: &[&'static [u8]],
) -> Result<Vec<u8>, Memory>
    requires { length source.now ≤ MOST_BYTES }
    ensures { IfOk result (λ told. told.items ≡
        meant_told source.now name here.now (map lexeme_of tokens.now) (map (λ token. token.now) may.now)) }
{
    if is_about_token(name) {
        word_told(alloc, text_of(last_token(tokens)), here, may)
    } else if is_unknown(name) {
        name_told(alloc, source, here, tokens)
    } else {
        Ok(Vec::new(alloc))
    }
}

// The word that a token was meant to be which can't stand here, or the one before it.
fn word_told(
    alloc: Global,
    before: &[u8],
    here: &[u8],
    may: &[&'static [u8]],
) -> Result<Vec<u8>, Memory>
    ensures { IfOk result (λ told. told.items ≡ word_told before.now here.now (map (λ token. token.now) may.now)) }
{
    let other = meant_or(alloc, statement_meant(before, may), b"")?;
    meant_or(alloc, meant_among(here, may), other.as_slice())
}

// Help in words, where there are some, and else another remark.
fn help_or(alloc: Global, words: Option<&'static [u8]>, other: &[u8]) -> Result<Vec<u8>, Memory>
    ensures { IfOk result (λ told. told.items ≡ help_or (option_map (λ w. w.now) words.entry) other.now) }
{
    match words {
        Some(words) => help(alloc, words),
        None => joined(alloc, &[other]),
    }
}

// What stands outside of all processes.
fn outer_words() -> &'static [&'static [u8]]
    ensures { map (λ word. word.now) result.now ≡ outer_words }
{
    &[b"end", b"process", b"channel", b"conversation"]
}

// The faults that come of what is written in other languages.
fn has_habits(name: FaultName) -> bool
    ensures { result ≡ has_habits name }
{
    matches!(name, FaultName::X1 | FaultName::Y1 | FaultName::S1)
}

/// Whether a fault is about a token that can't stand there.
pub(crate) fn is_about_token(name: FaultName) -> bool
    ensures { result ≡ is_about_token name }
{
    matches!(name, FaultName::Y1)
}

// Whether a fault is about a name that nothing declares.
fn is_unknown(name: FaultName) -> bool
    ensures { result ≡ is_unknown name }
{
    matches!(name, FaultName::S1)
}
