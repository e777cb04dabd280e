//! Why a source is refused, in words.

ghost use Rattle.std.specs.Prelude.{◌≡◌, ◌≤◌, length, map, IfOk};
ghost use Rattle.rb_lex.specs.TokenList.{tokens_of};
ghost use Rattle.rb_why.specs.Nested.{elsewhere, lacking, unequal};
ghost use Rattle.rb_why.specs.Source.{IsReason, Tries, reason_told, way_of, words_by};

use crate::bytes::{byte_sentence, open_sentence};
use crate::expected::{expected, is_tried, stray_sentence};
use crate::nested::{elsewhere_sentence, lacking_sentence, unequal_sentence};
use crate::phrases::sentence;
use crate::remarks::{is_about_token, remarks};
use crate::tokens::{token_text, tokens_of};
use rb_base::{FaultName, MOST_BYTES, Memory, Place, SourceFault};
use rb_frame::frame::frame_with;
use rb_frame::lines::before;
use std::alloc::Global;

/// Which sentence a fault of a source has.
#[derive(Clone, Copy)]
pub(crate) enum Way {
    /// About a byte.
    Byte,
    /// About a text that does not end.
    Open,
    /// About a token that can't stand there, and what may.
    Stray,
    /// About a conversation and the one around it.
    Lacking,
    /// About the two conversations around one.
    Elsewhere,
    /// About the alternates of a conversation.
    Unequal,
    /// About the token at the place.
    Token,
}

/// Why a source of this file is refused for this fault: the file and the place, one sentence with what it is about, the line with a mark
/// under the place, and what helps beside.
pub fn source_reason(
    alloc: Global,
    file: &[u8],
    source: &[u8],
    fault: SourceFault,
) -> Result<Vec<u8>, Memory>
    requires { length source.now ≤ MOST_BYTES }
    ensures { IfOk result (λ told. IsReason file.now source.now fault told.items) }
{
    let may = may_stand_there(alloc, source, fault)?;
    reason_told(alloc, file, source, fault, may.as_slice())
}

// What may stand at the place of a fault, where that is tried.
fn may_stand_there(
    alloc: Global,
    source: &[u8],
    fault: SourceFault,
) -> Result<Vec<&'static [u8]>, Memory>
    ensures { IfOk result (λ may. Tries source.now fault (map (λ token. token.now) may.items)) }
{
    if is_about_token(fault.name) && is_tried(source, fault.place) {
        expected(alloc, before(source, fault.place), fault.place.line)
    } else {
        Ok(Vec::new(alloc))
    }
}

// The sentence and the remarks, where these may stand at the place.
fn reason_told(
    alloc: Global,
    file: &[u8],
    source: &[u8],
    fault: SourceFault,
    may: &[&'static [u8]],
) -> Result<Vec<u8>, Memory>
    requires { length source.now ≤ MOST_BYTES }
    ensures { IfOk result (λ told. told.items ≡ reason_told file.now source.now fault (map (λ token. token.now) may.now)) }
{
    let words = words_about(alloc, source, fault, may)?;
    let remarks = remarks(alloc, source, fault, may)?;
    frame_with(
        alloc,
        file,
        source,
        fault.place,
        fault.name.word(),
        words.as_slice(),
        remarks.as_slice(),
    )
}

// The sentence about a fault.
fn words_about(
    alloc: Global,
    source: &[u8],
    fault: SourceFault,
    may: &[&'static [u8]],
) -> Result<Vec<u8>, Memory>
    requires { length source.now ≤ MOST_BYTES }
    ensures { IfOk result (λ words. words.items ≡ words_by (way_of fault.name) source.now fault (map (λ token. token.now) may.now)) }
{
    match way_of(fault.name) {
        Way::Byte => byte_sentence(alloc, source, fault.place),
        Way::Open => open_sentence(alloc, source, fault.place),
        Way::Stray => stray_sentence(alloc, source, fault.place, may),
        Way::Lacking => lacking_there(alloc, source, fault.place),
        Way::Elsewhere => elsewhere_there(alloc, source, fault.place),
        Way::Unequal => unequal_there(alloc, source, fault.place),
        Way::Token => sentence(alloc, fault.name, token_text(source, fault.place)),
    }
}

fn lacking_there(alloc: Global, source: &[u8], place: Place) -> Result<Vec<u8>, Memory>
    requires { length source.now ≤ MOST_BYTES }
    ensures { IfOk result (λ words. words.items ≡ lacking (tokens_of source.now) place) }
{
    let tokens = tokens_of(alloc, source)?;
    lacking_sentence(alloc, tokens.as_slice(), place)
}

fn elsewhere_there(alloc: Global, source: &[u8], place: Place) -> Result<Vec<u8>, Memory>
    requires { length source.now ≤ MOST_BYTES }
    ensures { IfOk result (λ words. words.items ≡ elsewhere (tokens_of source.now) place) }
{
    let tokens = tokens_of(alloc, source)?;
    elsewhere_sentence(alloc, tokens.as_slice(), place)
}

fn unequal_there(alloc: Global, source: &[u8], place: Place) -> Result<Vec<u8>, Memory>
    requires { length source.now ≤ MOST_BYTES }
    ensures { IfOk result (λ words. words.items ≡ unequal (tokens_of source.now) place) }
{
    let tokens = tokens_of(alloc, source)?;
    unequal_sentence(alloc, tokens.as_slice(), place)
}

fn way_of(name: FaultName) -> Way
    ensures { result ≡ way_of name }
{
    match name {
        FaultName::X1 => Way::Byte,
        FaultName::X2 => Way::Open,
        FaultName::Y1 => Way::Stray,
        FaultName::N3 => Way::Lacking,
        FaultName::N4 => Way::Elsewhere,
        FaultName::N5 => Way::Unequal,
        _ => Way::Token,
    }
}
