//! The lexer itself, which stands at a place of a source and gives its next token.

ghost use Rattle.std.specs.Prelude.{◌≡◌, ◌≤◌, ◌+◌, ◌*◌, ◌^◌, length, Bool, false, cond, codes};
ghost use Rattle.rb_lex.specs.Bytes.{first_place};
ghost use Rattle.rb_lex.specs.Tokens.{edition_of, begins_with, next_from};
ghost use Rattle.rb_lex.specs.Reader.{Reader, Answers};
ghost use Rattle.rb_lex.specs.Gaps.{HasRoom};

use crate::reading::{Reading, read_next};
use crate::token::Token;
use rb_base::{Edition, MOST_BYTES, Place, SourceFault};
use std::marker::Model;

/// Reads the tokens of a source, one at a time. Contracts see the edition, the place of the next byte and
/// the bytes left.
#[derive(Drop)]
pub struct Lexer<'a> {
    edition: Edition,
    place: Place,
    left: &'a [u8],
}

impl<'a> Model for Lexer<'a> {
    ghost Value = { Reader };

    ghost view = { λ l. record { edition = l.edition; place = l.place; left = l.left.now } };

    ghost invariant = { λ l. HasRoom l.place l.left.now };
}

impl<'a> Lexer<'a> {
    /// Stands before the first byte of a source.
    pub fn new(source: &'a [u8]) -> Self
        requires { length source.now ≤ MOST_BYTES }
        ensures { result ≡ record { edition = edition_of source.now; place = first_place; left = source.now } }
    {
        let place = Place { line: 1, column: 1 };
        Lexer {
            edition: edition_of(place, source),
            place,
            left: source,
        }
    }

    /// The next token, or `None` at the end and from then on. A fault is answered again by each later call.
    pub fn next(&mut self) -> Result<Option<Token<'a>>, SourceFault>
        ensures { Answers self.old result self.new }
    {
        // nothing is written before the reading is done, so a fault leaves the lexer where it was
        let Reading { token, after } = read_next(self.edition, self.place, self.left)?;
        self.place = after.place;
        self.left = after.left;
        Ok(token)
    }

    /// The place of the next byte to be read; after the end that behind the last byte.
    pub fn place(&self) -> Place
        ensures { result ≡ self.now.place }
    {
        self.place
    }

    /// The edition of the source.
    pub fn edition(&self) -> Edition
        ensures { result ≡ self.now.edition }
    {
        self.edition
    }
}

// The edition of a source that begins at this place.
fn edition_of(place: Place, source: &[u8]) -> Edition
    requires { HasRoom place source.now }
    ensures { result ≡ cond (begins_with (next_from Edition.First false place source.now) (codes "edition")) Edition.Second Edition.First }
{
    if begins_second(place, source) {
        Edition::Second
    } else {
        Edition::First
    }
}

// Whether the first token from here has the bytes that only the second edition begins with.
fn begins_second(place: Place, source: &[u8]) -> bool
    requires { HasRoom place source.now }
    ensures { result ≡ begins_with (next_from Edition.First false place source.now) (codes "edition") }
{
    match read_next(Edition::First, place, source) {
        Ok(
            Reading {
                token: Some(token),
                ..
            },
        ) => token.text == b"edition".as_slice(),
        Ok(Reading { token: None, .. }) | Err(_) => false,
    }
}
