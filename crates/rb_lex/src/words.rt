//! Tokens that are names, and which of them an edition reserves.

ghost use Rattle.std.specs.Prelude.{◌≡◌, ◌≤◌, length, take_while, map, nat_eq};
ghost use Rattle.std.specs.List.{prefix_len, list_any};
ghost use Rattle.std.specs.Cmp.Lexicographic.{pointwise};
ghost use Rattle.rb_base.specs.Reserved.{common_words, is_one_of, is_reserved, own_words};
ghost use Rattle.rb_base.specs.Bytes.{is_name_byte};
ghost use Rattle.rb_lex.specs.Tokens.{name_front};
ghost use Rattle.rb_lex.specs.Cuts.{front_of, reach_of, of_length};

use crate::cut::{Cut, Stop};
use crate::token::Kind;
use rb_base::bytes::is_name_byte;
use rb_base::{Edition, FaultName, LONGEST_NAME};

// A name, or a reserved word.
pub(crate) fn name_cut(edition: Edition, bytes: &[u8]) -> Result<Cut, Stop>
    ensures value { front_of result ≡ name_front edition (take_while is_name_byte bytes.now) }
    ensures within { reach_of result ≤ length bytes.now }
{
    let size = name_len(bytes);
    if size > LONGEST_NAME {
        return Err(Stop::at_front(FaultName::X5));
    }
    let kind = if is_reserved(edition, &bytes[..size]) {
        Kind::Word
    } else {
        Kind::Name
    };
    Ok(Cut { kind, size })
}

// How many bytes a name at the front has.
fn name_len(bytes: &[u8]) -> usize
    ensures { result ≡ prefix_len is_name_byte bytes.now }
{
    for (at, b) in bytes.iter().enumerate() {
        if !is_name_byte(*b) {
            return at;
        }
    }
    bytes.len()
}

/// Whether a text is a word of the language in this edition, and so no name.
pub fn is_reserved(edition: Edition, text: &[u8]) -> bool
    ensures { result ≡ is_reserved edition text.now }
{
    is_common_word(text) || is_own_word(edition, text)
}

fn is_common_word(text: &[u8]) -> bool
    ensures { result ≡ is_one_of common_words text.now }
{
    is_listed(words_of_length(text.len()), text)
}

// A text is compared with the words of its own length alone.
fn words_of_length(size: usize) -> &'static [&'static [u8]]
    ensures { map (λ word. word.now) result.now ≡ of_length size common_words }
{
    match size {
        2 => &[b"by", b"if", b"or", b"to"],
        3 => &[b"all", b"and", b"end", b"not", b"var"],
        4 => &[b"call", b"else", b"fail", b"from", b"send", b"size"],
        5 => &[b"error", b"print", b"prior", b"while"],
        6 => &[b"ensure", b"within"],
        7 => &[b"channel", b"process", b"program", b"receive"],
        8 => &[b"converse"],
        9 => &[b"procedure"],
        12 => &[b"conversation"],
        _ => &[],
    }
}

fn is_own_word(edition: Edition, text: &[u8]) -> bool
    ensures { result ≡ is_one_of (own_words edition) text.now }
{
    match edition {
        Edition::First => false,
        Edition::Second => is_listed(&[b"edition", b"every", b"some", b"sum"], text),
    }
}

// Whether the text is one of these words.
fn is_listed(words: &[&[u8]], text: &[u8]) -> bool
    ensures { result ≡ list_any (λ word. pointwise nat_eq word.now text.now) words.now }
{
    for word in words {
        if *word == text {
            return true;
        }
    }
    false
}
