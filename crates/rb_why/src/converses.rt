//! Which conversation stands around a `converse`, seen from the tokens alone.
//!
//! A block begins at its `ensure` and ends at its `error`, and blocks stand inside each other. A `converse` names its conversation right
//! behind it, and that is the conversation of the next block.

ghost use Rattle.std.specs.Prelude.{◌≡◌, None, map, option_map, slice_get, IfOk};
ghost use Rattle.rb_lex.specs.Reader.{lexeme_of};
ghost use Rattle.rb_why.specs.Converses.{converse_at, converses_of, first_converse, has_text, innermost, name_around, stands_at};

use rb_base::{Memory, Place};
use rb_frame::places::is_place;
use rb_lex::Token;
use std::alloc::Global;

/// A `converse`: which token names its conversation, and which one that of the conversation right around it.
#[derive(Clone, Copy)]
pub(crate) struct Converse {
    pub(crate) named: usize,
    pub(crate) around: Option<usize>,
}

/// Every `converse` of a source in order.
pub(crate) fn converses(alloc: Global, tokens: &[Token<'_>]) -> Result<Vec<Converse>, Memory>
    ensures { IfOk result (λ found. found.items ≡ converses_of (map lexeme_of tokens.now)) }
{
    let mut found = Vec::new(alloc);
    let mut blocks = Vec::new(alloc);
    let mut next = None;
    let mut at = 0_usize;
    let mut rest = tokens;
    while let [token, after @ ..] = rest {
        at += 1;
        if token.text == b"converse".as_slice() {
            let around = innermost(blocks.as_slice());
            found.push(Converse { named: at, around })?;
            next = Some(at);
        } else if token.text == b"ensure".as_slice() {
            blocks.push(next)?;
            next = None;
        } else if token.text == b"error".as_slice() {
            let _block = blocks.pop();
        }
        rest = after;
    }
    Ok(found)
}

// The innermost conversation of the blocks that are blocks, the outermost first.
fn innermost(blocks: &[Option<usize>]) -> Option<usize>
    ensures { result ≡ innermost blocks.now None }
{
    let mut found = None;
    let mut rest = blocks;
    while let [block, after @ ..] = rest {
        if let Some(name) = block {
            found = Some(*name);
        }
        rest = after;
    }
    found
}

/// The `converse` whose name stands at this place, among all of a source.
pub(crate) fn converse_at(
    tokens: &[Token<'_>],
    converses: &[Converse],
    place: Place,
) -> Option<Converse>
    requires { converses.now ≡ converses_of (map lexeme_of tokens.now) }
    ensures { result ≡ converse_at (map lexeme_of tokens.now) place }
{
    let mut rest = converses;
    while let [converse, after @ ..] = rest {
        if stands_at(tokens, converse.named, place) {
            return Some(*converse);
        }
        rest = after;
    }
    None
}

fn stands_at(tokens: &[Token<'_>], number: usize, place: Place) -> bool
    ensures { result ≡ stands_at place (slice_get (map lexeme_of tokens.now) number) }
{
    match tokens.get(number) {
        Some(token) => is_place(token.place, place),
        None => false,
    }
}

/// The first `converse` for the conversation of this name, among all of a source.
pub(crate) fn first_converse(
    tokens: &[Token<'_>],
    converses: &[Converse],
    name: &[u8],
) -> Option<Converse>
    requires { converses.now ≡ converses_of (map lexeme_of tokens.now) }
    ensures { result ≡ first_converse (map lexeme_of tokens.now) name.now }
{
    let mut rest = converses;
    while let [converse, after @ ..] = rest {
        if has_text(tokens, converse.named, name) {
            return Some(*converse);
        }
        rest = after;
    }
    None
}

fn has_text(tokens: &[Token<'_>], number: usize, text: &[u8]) -> bool
    ensures { result ≡ has_text text.now (slice_get (map lexeme_of tokens.now) number) }
{
    match tokens.get(number) {
        Some(token) => token.text == text,
        None => false,
    }
}

/// The name of the conversation right around a `converse`.
pub(crate) fn name_around<'a>(tokens: &[Token<'a>], converse: Option<Converse>) -> Option<&'a [u8]>
    ensures { option_map (λ name. name.now) result ≡ name_around (map lexeme_of tokens.now) converse }
{
    let token = tokens.get(converse?.around?)?;
    Some(token.text)
}
