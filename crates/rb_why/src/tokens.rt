//! The tokens of a source, and the one at a place.

ghost use Rattle.std.specs.Prelude.{◌≡◌, ◌≤◌, length, map, IfOk};
ghost use Rattle.rb_lex.specs.Reader.{lexeme_of};
ghost use Rattle.rb_lex.specs.TokenList.{tokens_of};
ghost use Rattle.rb_why.specs.Tokens.{text_at};

use rb_base::{MOST_BYTES, Memory, Place};
use rb_frame::places::is_place;
use rb_lex::{Lexer, Token};
use std::alloc::Global;

/// All tokens of a source, up to the first fault of one.
#[tactic(auto, using(rb_lex::proofs::Answered::answers_first, rb_lex::proofs::Answered::answers_end, rb_lex::proofs::Answered::answers_fault))]
pub(crate) fn tokens_of<'a>(alloc: Global, source: &'a [u8]) -> Result<Vec<Token<'a>>, Memory>
    requires { length source.now ≤ MOST_BYTES }
    ensures { IfOk result (λ tokens. map lexeme_of tokens.items ≡ tokens_of source.now) }
{
    let mut lexer = Lexer::new(source);
    let mut tokens = Vec::new(alloc);
    'reading: loop {
        match lexer.next() {
            Ok(Some(token)) => tokens.push(token)?,
            Ok(None) | Err(_) => return Ok(tokens),
        }
    }
}

/// The text of the token at a place of a source; nothing where none stands there. It is found in one pass, and takes no memory.
#[tactic(auto, using(rb_lex::proofs::Answered::answers_first, rb_lex::proofs::Answered::answers_end, rb_lex::proofs::Answered::answers_fault))]
pub(crate) fn token_text<'a>(source: &'a [u8], place: Place) -> &'a [u8]
    requires { length source.now ≤ MOST_BYTES }
    ensures { result.now ≡ text_at place (tokens_of source.now) }
{
    let mut lexer = Lexer::new(source);
    'reading: loop {
        match lexer.next() {
            Ok(Some(token)) => {
                if is_place(token.place, place) {
                    return token.text;
                }
            }
            Ok(None) | Err(_) => return &[],
        }
    }
}

/// The text of that of these tokens which stands at a place.
pub(crate) fn text_at<'a>(tokens: &[Token<'a>], place: Place) -> &'a [u8]
    ensures { result.now ≡ text_at place (map lexeme_of tokens.now) }
{
    let mut rest = tokens;
    while let [token, after @ ..] = rest {
        if is_place(token.place, place) {
            return token.text;
        }
        rest = after;
    }
    &[]
}
