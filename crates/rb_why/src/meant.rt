//! What a word was meant to be.

ghost use Rattle.std.specs.Prelude.{◌≡◌, [], map, option_map, IfOk};
ghost use Rattle.rb_near.specs.Nearest.{nearest};
ghost use Rattle.rb_why.specs.Meant.{all_words, meant_among, meant_or, statement_meant};

use crate::listed::is_among;
use crate::phrases::around;
use rb_base::Memory;
use rb_frame::frame::help;
use rb_frame::joined::joined;
use rb_near::nearest;
use std::alloc::Global;

/// The one of these that a word was meant to be, which is none of the language.
pub(crate) fn meant_among<'a>(word: &[u8], others: &[&'a [u8]]) -> Option<&'a [u8]>
    ensures { option_map (λ near. near.now) result ≡ meant_among word.now (map (λ other. other.now) others.now) }
{
    if is_among(all_words(), word) {
        None
    } else {
        nearest(word, others)
    }
}

/// The word of the language that the first word of a statement was meant to be, where these may stand behind it.
pub(crate) fn statement_meant(word: &[u8], may: &[&[u8]]) -> Option<&'static [u8]>
    ensures { option_map (λ near. near.now) result ≡ statement_meant word.now (map (λ token. token.now) may.now) }
{
    if is_among(may, b":=") {
        meant_among(word, all_words())
    } else {
        None
    }
}

/// Help with what was meant, if that is known, and else another remark.
pub(crate) fn meant_or(alloc: Global, word: Option<&[u8]>, other: &[u8]) -> Result<Vec<u8>, Memory>
    ensures { IfOk result (λ told. told.items ≡ meant_or (option_map (λ w. w.now) word.entry) other.now) }
{
    match word {
        Some(word) => {
            let words = around(alloc, b"did you mean `", word, b"`?")?;
            help(alloc, words.as_slice())
        }
        None => joined(alloc, &[other]),
    }
}

/// Help with the one of these that was meant by a word.
pub(crate) fn nearest_told(alloc: Global, word: &[u8], others: &[&[u8]]) -> Result<Vec<u8>, Memory>
    ensures { IfOk result (λ told. told.items ≡ meant_or (nearest word.now (map (λ other. other.now) others.now)) []) }
{
    meant_or(alloc, nearest(word, others), b"")
}

// The words of the language.
fn all_words() -> &'static [&'static [u8]]
    ensures { map (λ word. word.now) result.now ≡ all_words }
{
    &[
        b"all",
        b"and",
        b"by",
        b"call",
        b"channel",
        b"conversation",
        b"converse",
        b"edition",
        b"else",
        b"end",
        b"ensure",
        b"error",
        b"every",
        b"fail",
        b"from",
        b"if",
        b"not",
        b"or",
        b"print",
        b"prior",
        b"procedure",
        b"process",
        b"program",
        b"receive",
        b"send",
        b"size",
        b"some",
        b"sum",
        b"to",
        b"var",
        b"while",
        b"within",
    ]
}
