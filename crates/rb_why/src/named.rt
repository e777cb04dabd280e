//! What is told of a name by where it is declared, and the name that was meant.

ghost use Rattle.std.specs.Prelude.{◌≡◌, ◌≤◌, [], None, drop, length, map, option_map, slice_get, IfOk};
ghost use Rattle.rb_lex.specs.Reader.{lexeme_of};
ghost use Rattle.rb_lex.specs.TokenList.{tokens_of};
ghost use Rattle.rb_lex.specs.Tokens.{Lexeme};
ghost use Rattle.rb_why.specs.Converses.{first_converse};
ghost use Rattle.rb_why.specs.Named.{declaration, is_quantified, last_named, name_told, names_at, note_of, place_named, quantifiers};

use crate::converses::{converses, first_converse};
use crate::meant::nearest_told;
use crate::scope::{names_around, with_named};
use crate::tokens::tokens_of;
use rb_base::{MOST_BYTES, Memory, Place};
use rb_frame::frame::note;
use rb_lex::Token;
use std::alloc::Global;

/// Help with the name that an unknown one was meant to be, behind these tokens of a source.
pub(crate) fn name_told<'a>(
    alloc: Global,
    source: &'a [u8],
    here: &[u8],
    before: &[Token<'a>],
) -> Result<Vec<u8>, Memory>
    requires { length source.now ≤ MOST_BYTES }
    ensures { IfOk result (λ told. told.items ≡ name_told source.now here.now (map lexeme_of before.now)) }
{
    let names = names_at(alloc, source, before)?;
    let texts = texts_of(alloc, names.as_slice())?;
    nearest_told(alloc, here, texts.as_slice())
}

// The names that are declared around the place behind these tokens.
fn names_at<'a>(
    alloc: Global,
    source: &'a [u8],
    before: &[Token<'a>],
) -> Result<Vec<Token<'a>>, Memory>
    requires { length source.now ≤ MOST_BYTES }
    ensures { IfOk result (λ names. map lexeme_of names.items ≡ names_at source.now (map lexeme_of before.now)) }
{
    let all = tokens_of(alloc, source)?;
    names_around(alloc, before, behind(all.as_slice(), before.len()))
}

/// The tokens behind so many.
#[tactic(auto, using(crate::proofs::Declaring::names_cut, crate::proofs::Declaring::none_left))]
pub(crate) fn behind<'t, 'a>(tokens: &'t [Token<'a>], count: usize) -> &'t [Token<'a>]
    ensures { map lexeme_of result.now ≡ drop count (map lexeme_of tokens.now) }
{
    if count <= tokens.len() {
        &tokens[count..]
    } else {
        &[]
    }
}

#[tactic(auto, using(crate::proofs::Listing::text_pushed))]
fn texts_of<'a>(alloc: Global, tokens: &[Token<'a>]) -> Result<Vec<&'a [u8]>, Memory>
    ensures { IfOk result (λ texts. map (λ text. text.now) texts.items ≡ map (λ (token : Lexeme). token.text) (map lexeme_of tokens.now)) }
{
    let mut texts = Vec::new(alloc);
    let mut rest = tokens;
    while let [token, after @ ..] = rest {
        texts.push(token.text)?;
        rest = after;
    }
    Ok(texts)
}

/// Where a name is declared, of those around the place behind these tokens.
pub(crate) fn declaration<'a>(
    alloc: Global,
    source: &'a [u8],
    name: &[u8],
    before: &[Token<'a>],
) -> Result<Option<Place>, Memory>
    requires { length source.now ≤ MOST_BYTES }
    ensures { IfOk result (λ place. place ≡ declaration source.now name.now (map lexeme_of before.now)) }
{
    if is_quantified(alloc, name, before)? {
        return Ok(None);
    }
    let names = names_at(alloc, source, before)?;
    Ok(last_named(name, names.as_slice()))
}

// Whether a quantified expression among these tokens has this name.
fn is_quantified(alloc: Global, name: &[u8], before: &[Token<'_>]) -> Result<bool, Memory>
    ensures { IfOk result (λ is. is ≡ is_quantified name.now (map lexeme_of before.now)) }
{
    let names = with_named(Vec::new(alloc), quantifiers(), &[], before)?;
    Ok(last_named(name, names.as_slice()).is_some())
}

/// The place of the last of these that has this text.
pub(crate) fn last_named(name: &[u8], tokens: &[Token<'_>]) -> Option<Place>
    ensures { result ≡ last_named name.now (map lexeme_of tokens.now) None }
{
    let mut found = None;
    let mut rest = tokens;
    while let [token, after @ ..] = rest {
        if token.text == name {
            found = Some(token.place);
        }
        rest = after;
    }
    found
}

/// The place of the first `converse` for a conversation.
pub(crate) fn first_place(
    alloc: Global,
    source: &[u8],
    name: &[u8],
) -> Result<Option<Place>, Memory>
    requires { length source.now ≤ MOST_BYTES }
    ensures { IfOk result (λ place. place ≡ place_named (tokens_of source.now) (first_converse (tokens_of source.now) name.now)) }
{
    let tokens = tokens_of(alloc, source)?;
    let converses = converses(alloc, tokens.as_slice())?;
    match first_converse(tokens.as_slice(), converses.as_slice(), name) {
        Some(converse) => Ok(place_at(tokens.as_slice(), converse.named)),
        None => Ok(None),
    }
}

fn place_at(tokens: &[Token<'_>], number: usize) -> Option<Place>
    ensures { result ≡ option_map (λ (token : Lexeme). token.place) (slice_get (map lexeme_of tokens.now) number) }
{
    match tokens.get(number) {
        Some(token) => Some(token.place),
        None => None,
    }
}

/// A remark about a place, if there is one.
pub(crate) fn note_of(
    alloc: Global,
    source: &[u8],
    place: Option<Place>,
    words: &[u8],
) -> Result<Vec<u8>, Memory>
    ensures { IfOk result (λ told. told.items ≡ note_of source.now place words.now) }
{
    match place {
        Some(place) => note(alloc, source, place, words),
        None => Ok(Vec::new(alloc)),
    }
}

// The words behind which a quantified expression has its name.
fn quantifiers() -> &'static [&'static [u8]]
    ensures { map (λ word. word.now) result.now ≡ quantifiers }
{
    &[b"every", b"some", b"sum"]
}
