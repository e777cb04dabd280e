//! What is still open, and what stands last, seen from the tokens before a place.

ghost use Rattle.std.specs.Prelude.{◌≡◌, [], map, option_map, IfOk};
ghost use Rattle.rb_lex.specs.Reader.{lexeme_of};
ghost use Rattle.rb_why.specs.Open.{innermost_open, last_of, open_behind, text_of};

use rb_base::{Memory, Place};
use rb_lex::Token;
use std::alloc::Global;

/// The innermost `{` that is open behind all these tokens.
pub(crate) fn innermost_open(alloc: Global, tokens: &[Token<'_>]) -> Result<Option<Place>, Memory>
    ensures { IfOk result (λ place. place ≡ innermost_open (map lexeme_of tokens.now)) }
{
    let opened = open_behind(alloc, tokens)?;
    Ok(last_place(opened.as_slice()))
}

// The places of the `{` that are open behind tokens, the outermost first.
fn open_behind(alloc: Global, tokens: &[Token<'_>]) -> Result<Vec<Place>, Memory>
    ensures { IfOk result (λ opened. opened.items ≡ open_behind [] (map lexeme_of tokens.now)) }
{
    let mut opened = Vec::new(alloc);
    let mut rest = tokens;
    while let [token, after @ ..] = rest {
        if token.text == b"{".as_slice() {
            opened.push(token.place)?;
        } else if token.text == b"}".as_slice() {
            let _closed = opened.pop();
        }
        rest = after;
    }
    Ok(opened)
}

fn last_place(places: &[Place]) -> Option<Place>
    ensures { result ≡ last_of places.now }
{
    places.get(places.len().saturating_sub(1)).copied()
}

/// The last of some tokens.
pub(crate) fn last_token<'a>(tokens: &[Token<'a>]) -> Option<Token<'a>>
    ensures { option_map lexeme_of result ≡ last_of (map lexeme_of tokens.now) }
{
    tokens.get(tokens.len().saturating_sub(1)).copied()
}

/// The text of a token; nothing where there is none.
pub(crate) fn text_of<'a>(token: Option<Token<'a>>) -> &'a [u8]
    ensures { result.now ≡ text_of (option_map lexeme_of token.entry) }
{
    match token {
        Some(token) => token.text,
        None => &[],
    }
}
