//! Sentences about conversations inside each other, and about the alternates of one.

ghost use Rattle.std.specs.Prelude.{◌≡◌, ◌++◌, codes, map, option_map, IfOk};
ghost use Rattle.rb_lex.specs.Reader.{lexeme_of};
ghost use Rattle.rb_why.specs.Nested.{alternates_of, counted, elsewhere, lacking, or_nothing, standing, unequal};
ghost use Rattle.rb_why.specs.Converses.{converse_at, converses_of, first_converse, name_around};

use crate::blocks::alternates;
use crate::converses::{Converse, converse_at, converses, first_converse, name_around};
use crate::named::behind;
use crate::tokens::text_at;
use itoa::Buffer;
use rb_base::{Memory, Place};
use rb_frame::joined::joined;
use rb_lex::Token;
use std::alloc::Global;

/// That a conversation stands inside one that lacks one of its members, with both names.
pub(crate) fn lacking_sentence(
    alloc: Global,
    tokens: &[Token<'_>],
    place: Place,
) -> Result<Vec<u8>, Memory>
    ensures { IfOk result (λ words. words.items ≡ lacking (map lexeme_of tokens.now) place) }
{
    let outer = outer_name(alloc, tokens, place)?;
    lacking(alloc, text_at(tokens, place), outer)
}

// The name of the conversation right around the one that is named at this place; nothing where there is none.
fn outer_name<'a>(alloc: Global, tokens: &[Token<'a>], place: Place) -> Result<&'a [u8], Memory>
    ensures { IfOk result (λ name. name.now ≡ or_nothing (name_around (map lexeme_of tokens.now) (converse_at (map lexeme_of tokens.now) place))) }
{
    let converses = converses(alloc, tokens)?;
    let here = converse_at(tokens, converses.as_slice(), place);
    match name_around(tokens, here) {
        Some(outer) => Ok(outer),
        None => Ok(&[]),
    }
}

fn lacking<'w>(alloc: Global, name: &'w [u8], outer: &'w [u8]) -> Result<Vec<u8>, Memory>
    ensures { IfOk result (λ words. words.items ≡
        codes "`" ++ (name.now ++ (codes "` stands inside `" ++ (outer.now ++ codes "`, which lacks one of its members")))) }
{
    joined(
        alloc,
        &[
            b"`",
            name,
            b"` stands inside `",
            outer,
            b"`, which lacks one of its members",
        ],
    )
}

/// That a conversation stands inside another one here than at its first `converse`, with both around it.
pub(crate) fn elsewhere_sentence(
    alloc: Global,
    tokens: &[Token<'_>],
    place: Place,
) -> Result<Vec<u8>, Memory>
    ensures { IfOk result (λ words. words.items ≡ elsewhere (map lexeme_of tokens.now) place) }
{
    let name = text_at(tokens, place);
    let converses = converses(alloc, tokens)?;
    let here = standing_here(alloc, tokens, converses.as_slice(), place)?;
    let first = standing_first(alloc, tokens, converses.as_slice(), name)?;
    elsewhere(alloc, name, here.as_slice(), first.as_slice())
}

// What the `converse` stands right inside whose name stands at this place.
fn standing_here(
    alloc: Global,
    tokens: &[Token<'_>],
    converses: &[Converse],
    place: Place,
) -> Result<Vec<u8>, Memory>
    requires { converses.now ≡ converses_of (map lexeme_of tokens.now) }
    ensures { IfOk result (λ words. words.items ≡ standing (name_around (map lexeme_of tokens.now) (converse_at (map lexeme_of tokens.now) place))) }
{
    let here = converse_at(tokens, converses, place);
    standing(alloc, name_around(tokens, here))
}

// What the first `converse` for the conversation of this name stands right inside.
fn standing_first(
    alloc: Global,
    tokens: &[Token<'_>],
    converses: &[Converse],
    name: &[u8],
) -> Result<Vec<u8>, Memory>
    requires { converses.now ≡ converses_of (map lexeme_of tokens.now) }
    ensures { IfOk result (λ words. words.items ≡ standing (name_around (map lexeme_of tokens.now) (first_converse (map lexeme_of tokens.now) name.now))) }
{
    let first = first_converse(tokens, converses, name);
    standing(alloc, name_around(tokens, first))
}

fn elsewhere<'w>(
    alloc: Global,
    name: &'w [u8],
    here: &'w [u8],
    first: &'w [u8],
) -> Result<Vec<u8>, Memory>
    ensures { IfOk result (λ words. words.items ≡
        codes "`" ++ (name.now ++ (codes "` stands " ++ (here.now ++ (codes " here, and " ++ (first.now ++ codes " at its first `converse`")))))) }
{
    joined(
        alloc,
        &[
            b"`",
            name,
            b"` stands ",
            here,
            b" here, and ",
            first,
            b" at its first `converse`",
        ],
    )
}

// What a `converse` stands right inside, by the name of that conversation.
fn standing(alloc: Global, around: Option<&[u8]>) -> Result<Vec<u8>, Memory>
    ensures { IfOk result (λ words. words.items ≡ standing (option_map (λ name. name.now) around.entry)) }
{
    match around {
        Some(name) => joined(alloc, &[b"right inside `", name, b"`"]),
        None => joined(alloc, &[b"inside no conversation"]),
    }
}

/// That a `converse` has another number of alternates than the first one for its conversation, with both numbers.
pub(crate) fn unequal_sentence(
    alloc: Global,
    tokens: &[Token<'_>],
    place: Place,
) -> Result<Vec<u8>, Memory>
    ensures { IfOk result (λ words. words.items ≡ unequal (map lexeme_of tokens.now) place) }
{
    let name = text_at(tokens, place);
    let converses = converses(alloc, tokens)?;
    let here = alternates_of(tokens, converse_at(tokens, converses.as_slice(), place));
    let first = alternates_of(tokens, first_converse(tokens, converses.as_slice(), name));
    let here = counted(alloc, here)?;
    let first = counted(alloc, first)?;
    unequal(alloc, name, here.as_slice(), first.as_slice())
}

// How many alternates a `converse` has.
fn alternates_of(tokens: &[Token<'_>], converse: Option<Converse>) -> usize
    ensures { result ≡ alternates_of (map lexeme_of tokens.now) converse }
{
    match converse {
        Some(converse) => alternates(behind(tokens, converse.named)),
        None => 0,
    }
}

// So many alternates.
fn counted(alloc: Global, count: usize) -> Result<Vec<u8>, Memory>
    ensures { IfOk result (λ words. words.items ≡ counted count) }
{
    let mut digits = Buffer::new();
    let number = digits.format(count).as_bytes();
    if count == 1 {
        joined(alloc, &[number, b" alternate"])
    } else {
        joined(alloc, &[number, b" alternates"])
    }
}

fn unequal<'w>(
    alloc: Global,
    name: &'w [u8],
    here: &'w [u8],
    first: &'w [u8],
) -> Result<Vec<u8>, Memory>
    ensures { IfOk result (λ words. words.items ≡
        codes "this `converse` for `" ++ (name.now ++ (codes "` has " ++ (here.now ++ (codes ", and the first one has " ++ first.now))))) }
{
    joined(
        alloc,
        &[
            b"this `converse` for `",
            name,
            b"` has ",
            here,
            b", and the first one has ",
            first,
        ],
    )
}
