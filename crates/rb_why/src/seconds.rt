//! The other place that a fault is about.

ghost use Rattle.std.specs.Prelude.{◌≡◌, ◌≤◌, [], None, codes, length, map, option_map, IfOk};
ghost use Rattle.rb_lex.specs.Reader.{lexeme_of};
ghost use Rattle.rb_lex.specs.Tokens.{Lexeme};
ghost use Rattle.rb_why.specs.Blocks.{blocks_open, innermost_begun, innermost_private, outermost_named};
ghost use Rattle.rb_why.specs.Named.{note_of};
ghost use Rattle.rb_why.specs.Seconds.{behind_last, enclosing, last_procedure, named_before, naming_words, second_of, second_place, second_told};

use crate::blocks::{blocks_open, innermost_begun, innermost_private, outermost_named};
use crate::listed::is_among;
use crate::named::{declaration, first_place, last_named, note_of};
use crate::open::last_token;
use crate::scope::with_named;
use rb_base::{FaultName, MOST_BYTES, Memory, Place};
use rb_lex::Token;
use std::alloc::Global;

/// What the other place is that a fault is about.
#[derive(Clone, Copy)]
pub(crate) enum Second {
    /// Where the name is declared.
    Declaration,
    /// The first `converse` for its conversation.
    First,
    /// What a `converse` stands in that may not.
    Enclosing,
    /// The outermost conversation around.
    Outermost,
    /// The test of the block around.
    Test,
    /// Where the process is named before in the same declaration.
    Naming,
    /// There is none.
    Nothing,
}

/// The other place that a fault is about behind these tokens, with its line, where this stands at the place of the fault; nothing where it
/// is about none.
pub(crate) fn second_place<'a>(
    alloc: Global,
    source: &'a [u8],
    name: FaultName,
    here: &[u8],
    before: &[Token<'a>],
) -> Result<Vec<u8>, Memory>
    requires { length source.now ≤ MOST_BYTES }
    ensures { IfOk result (λ told. told.items ≡ second_place source.now name here.now (map lexeme_of before.now)) }
{
    match second_of(name) {
        Second::Declaration => declaration_told(alloc, source, here, before),
        Second::First => first_told(alloc, source, here),
        Second::Enclosing => enclosing_told(alloc, source, before),
        Second::Outermost => outermost_told(alloc, source, before),
        Second::Test => test_told(alloc, source, before),
        Second::Naming => naming_told(alloc, source, here, before),
        Second::Nothing => Ok(Vec::new(alloc)),
    }
}

fn declaration_told<'a>(
    alloc: Global,
    source: &'a [u8],
    here: &[u8],
    before: &[Token<'a>],
) -> Result<Vec<u8>, Memory>
    requires { length source.now ≤ MOST_BYTES }
    ensures { IfOk result (λ told. told.items ≡ second_told Second.Declaration source.now here.now (map lexeme_of before.now)) }
{
    let place = declaration(alloc, source, here, before)?;
    note_of(alloc, source, place, b"it is declared here")
}

fn first_told(alloc: Global, source: &[u8], here: &[u8]) -> Result<Vec<u8>, Memory>
    requires { length source.now ≤ MOST_BYTES }
    ensures { IfOk result (λ told. told.items ≡ second_told Second.First source.now here.now []) }
{
    let place = first_place(alloc, source, here)?;
    note_of(
        alloc,
        source,
        place,
        b"the first `converse` for it stands here",
    )
}

fn enclosing_told(alloc: Global, source: &[u8], before: &[Token<'_>]) -> Result<Vec<u8>, Memory>
    ensures { IfOk result (λ told. told.items ≡
        enclosing source.now (innermost_private (blocks_open (map lexeme_of before.now)) None) (map lexeme_of before.now)) }
{
    let blocks = blocks_open(alloc, before)?;
    match innermost_private(blocks.as_slice()) {
        Some(place) => note_of(
            alloc,
            source,
            Some(place),
            b"it stands inside this `ensure`",
        ),
        None => procedure_told(alloc, source, before),
    }
}

fn procedure_told(alloc: Global, source: &[u8], before: &[Token<'_>]) -> Result<Vec<u8>, Memory>
    ensures { IfOk result (λ told. told.items ≡ enclosing source.now None (map lexeme_of before.now)) }
{
    let place = last_procedure(alloc, before)?;
    note_of(alloc, source, place, b"it stands in this procedure")
}

// The name of the last procedure before a place.
fn last_procedure(alloc: Global, before: &[Token<'_>]) -> Result<Option<Place>, Memory>
    ensures { IfOk result (λ place. place ≡ last_procedure (map lexeme_of before.now)) }
{
    let names = with_named(Vec::new(alloc), &[b"procedure"], &[], before)?;
    Ok(place_of(last_token(names.as_slice())))
}

fn place_of(token: Option<Token<'_>>) -> Option<Place>
    ensures { result ≡ option_map (λ (t : Lexeme). t.place) (option_map lexeme_of token.entry) }
{
    let token = token?;
    Some(token.place)
}

fn outermost_told(alloc: Global, source: &[u8], before: &[Token<'_>]) -> Result<Vec<u8>, Memory>
    ensures { IfOk result (λ told. told.items ≡ second_told Second.Outermost source.now [] (map lexeme_of before.now)) }
{
    let blocks = blocks_open(alloc, before)?;
    let place = outermost_named(blocks.as_slice());
    note_of(alloc, source, place, b"the outermost of them stands here")
}

fn test_told(alloc: Global, source: &[u8], before: &[Token<'_>]) -> Result<Vec<u8>, Memory>
    ensures { IfOk result (λ told. told.items ≡ second_told Second.Test source.now [] (map lexeme_of before.now)) }
{
    let blocks = blocks_open(alloc, before)?;
    let place = innermost_begun(blocks.as_slice());
    note_of(
        alloc,
        source,
        place,
        b"the test of the block around it begins here",
    )
}

fn naming_told(
    alloc: Global,
    source: &[u8],
    here: &[u8],
    before: &[Token<'_>],
) -> Result<Vec<u8>, Memory>
    ensures { IfOk result (λ told. told.items ≡ second_told Second.Naming source.now here.now (map lexeme_of before.now)) }
{
    let place = named_before(here, before);
    note_of(alloc, source, place, b"it is named here before")
}

// Where a process is named before, in the declaration that is read behind these tokens.
fn named_before(name: &[u8], before: &[Token<'_>]) -> Option<Place>
    ensures { result ≡ named_before name.now (map lexeme_of before.now) }
{
    last_named(name, behind_last(naming_words(), before))
}

// The tokens behind the last one of these words.
fn behind_last<'t, 'a>(words: &[&[u8]], tokens: &'t [Token<'a>]) -> &'t [Token<'a>]
    ensures { map lexeme_of result.now ≡ behind_last (map (λ word. word.now) words.now) (map lexeme_of tokens.now) [] }
{
    let mut found: &'t [Token<'a>] = &[];
    let mut rest = tokens;
    while let [token, after @ ..] = rest {
        if is_among(words, token.text) {
            found = after;
        }
        rest = after;
    }
    found
}

// The words that begin a declaration in which processes are named.
fn naming_words() -> &'static [&'static [u8]]
    ensures { map (λ word. word.now) result.now ≡ naming_words }
{
    &[b"channel", b"conversation"]
}

fn second_of(name: FaultName) -> Second
    ensures { result ≡ second_of name }
{
    match name {
        FaultName::S2
        | FaultName::S3
        | FaultName::S4
        | FaultName::N2
        | FaultName::N3
        | FaultName::N6
        | FaultName::N8
        | FaultName::N9
        | FaultName::N10 => Second::Declaration,
        FaultName::N4 | FaultName::N5 | FaultName::N7 => Second::First,
        FaultName::S5 => Second::Test,
        FaultName::N1 => Second::Enclosing,
        FaultName::N11 | FaultName::N12 => Second::Naming,
        FaultName::N13 => Second::Outermost,
        _ => Second::Nothing,
    }
}
