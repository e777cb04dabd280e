//! What may stand at a place of a source in place of what stands there: each token is tried by the parser itself.

ghost use Rattle.std.specs.Prelude.{◌≡◌, ◌↔◌, ◌≤◌, ◌++◌, ◌&&◌, nat_eq, not, [], codes, length, map, take, IfOk, IsTrue};
ghost use Rattle.rb_why.specs.Expected.{GoesOn, IsOther, IsRefusedBehind, IsTold, MayStand, Tells, TellsTried, front_behind, is_name_there, is_own, label, labels, others, told_first, tried, trial};
ghost use Rattle.std.specs.Cmp.Lexicographic.{pointwise};
ghost use Rattle.rb_why.specs.declared.expected.TheConstants.{MOST_TOLD};
ghost use Rattle.rb_why.specs.Source.{is_tried, stray_told, stray_words, with_expected};

use crate::likeness::reads_like_schedule;
use crate::listed::{quoted, with_word};
use crate::phrases::{around, sentence};
use crate::tokens::token_text;
use itoa::Buffer;
use rb_base::bytes::is_name;
use rb_base::{FaultName, MOST_BYTES, Memory, Place, Refusal};
use rb_frame::joined::joined;
use rb_frame::lines::before;
use rb_frame::places::is_place;
use rb_lex::{Lexer, is_reserved};
use rb_parse::parse;
use std::alloc::Global;

/// The most bytes before a place for which it is tried what may stand there: each of some 60 trials reads them all.
const MOST_TRIED: usize = 16_384;
/// The most tokens that are named of those that may stand at a place.
const MOST_TOLD: usize = 5;

/// That a token can't stand at a place of a source, or that the source ends there too early, and which ones may stand there.
pub(crate) fn stray_sentence(
    alloc: Global,
    source: &[u8],
    place: Place,
    may: &[&'static [u8]],
) -> Result<Vec<u8>, Memory>
    requires { length source.now ≤ MOST_BYTES }
    ensures { IfOk result (λ words. words.items ≡ stray_told source.now place (map (λ token. token.now) may.now)) }
{
    if reads_like_schedule(source) {
        return joined(
            alloc,
            &[b"this reads like a schedule, and a source is wanted here"],
        );
    }
    let words = stray_words(alloc, token_text(source, place))?;
    if is_tried(source, place) {
        with_expected(alloc, words.as_slice(), may)
    } else {
        Ok(words)
    }
}

/// Whether it is tried what may stand in place of a stray token.
pub(crate) fn is_tried(source: &[u8], place: Place) -> bool
    ensures { result ≡ is_tried source.now place }
{
    !reads_like_schedule(source) && before(source, place).len() <= MOST_TRIED
}

fn stray_words(alloc: Global, token: &[u8]) -> Result<Vec<u8>, Memory>
    ensures { IfOk result (λ words. words.items ≡ stray_words token.now) }
{
    if token.is_empty() {
        joined(alloc, &[b"the source ends too early"])
    } else {
        sentence(alloc, FaultName::Y1, token)
    }
}

// With what may stand there, if anything may.
#[tactic(auto, using(crate::proofs::Listing::with_some, crate::proofs::Listing::with_none))]
fn with_expected(alloc: Global, words: &[u8], may: &[&'static [u8]]) -> Result<Vec<u8>, Memory>
    ensures { IfOk result (λ told. told.items ≡ with_expected words.now (map (λ token. token.now) may.now)) }
{
    if let [_, ..] = may {
        let first = told_first(alloc, may)?;
        let told = around(alloc, words, b"; expected ", first.as_slice())?;
        Ok(told)
    } else {
        let told = around(alloc, words, b": the program has ended", b"")?;
        Ok(told)
    }
}

// The first tokens of a list as they are told, and how many others there are.
#[tactic(auto, using(crate::proofs::Listing::first_and_others))]
fn told_first(alloc: Global, tokens: &[&'static [u8]]) -> Result<Vec<u8>, Memory>
    ensures { IfOk result (λ words. words.items ≡ told_first (map (λ token. token.now) tokens.now)) }
{
    let labels = labels(alloc, first_tokens(tokens))?;
    let others = others(alloc, tokens.len().saturating_sub(MOST_TOLD))?;
    let told = around(alloc, labels.as_slice(), others.as_slice(), b"")?;
    Ok(told)
}

// The tokens that are named of a list.
#[tactic(auto, using(crate::proofs::Listing::cut_short))]
fn first_tokens<'t>(tokens: &'t [&'static [u8]]) -> &'t [&'static [u8]]
    ensures { map (λ token. token.now) result.now ≡ take MOST_TOLD (map (λ token. token.now) tokens.now) }
{
    if tokens.len() > MOST_TOLD {
        &tokens[..MOST_TOLD]
    } else {
        tokens
    }
}

// Tokens as they are told.
fn labels(alloc: Global, tokens: &[&'static [u8]]) -> Result<Vec<u8>, Memory>
    ensures { IfOk result (λ words. words.items ≡ labels (map (λ token. token.now) tokens.now) []) }
{
    let mut told = Vec::new(alloc);
    let mut rest = tokens;
    while let [token, after @ ..] = rest {
        let label = label(alloc, token)?;
        told = with_word(alloc, told.as_slice(), label.as_slice())?;
        rest = after;
    }
    Ok(told)
}

// How many tokens there are beside those that are named.
fn others(alloc: Global, count: usize) -> Result<Vec<u8>, Memory>
    ensures { IfOk result (λ words. words.items ≡ others count) }
{
    if count == 0 {
        return Ok(Vec::new(alloc));
    }
    if count == 1 {
        return joined(alloc, &[b" or 1 other"]);
    }
    let mut digits = Buffer::new();
    around(alloc, b" or ", digits.format(count).as_bytes(), b" others")
}

/// The tokens that may stand behind a text that ends on this line, in their order. A token may stand there where the text with it, on a line
/// of its own, is not refused at it.
pub(crate) fn expected(
    alloc: Global,
    before: &[u8],
    line: u32,
) -> Result<Vec<&'static [u8]>, Memory>
    ensures { IfOk result (λ told. TellsTried before.now line (map (λ token. token.now) told.items)) }
{
    told_among(alloc, before, line, tried())
}

// Those of these tokens.
fn told_among(
    alloc: Global,
    before: &[u8],
    line: u32,
    tokens: &'static [&'static [u8]],
) -> Result<Vec<&'static [u8]>, Memory>
    ensures { IfOk result (λ told. Tells before.now line (map (λ token. token.now) tokens.now) [] (map (λ token. token.now) told.items)) }
{
    let mut told = Vec::new(alloc);
    let mut rest = tokens;
    while let [token, after @ ..] = rest {
        told = with_tried(alloc, before, line, told, token)?;
        rest = after;
    }
    Ok(told)
}

// What was told after a token was tried.
fn with_tried(
    alloc: Global,
    before: &[u8],
    line: u32,
    told: Vec<&'static [u8]>,
    token: &'static [u8],
) -> Result<Vec<&'static [u8]>, Memory>
    ensures { IfOk result (λ next. GoesOn before.now line token.now (map (λ t. t.now) told.entry.items) (map (λ t. t.now) next.items)) }
{
    let mut next = told;
    if is_told(alloc, before, line, token)? {
        next.push(token)?;
    }
    Ok(next)
}

// How a token is told.
fn label(alloc: Global, token: &[u8]) -> Result<Vec<u8>, Memory>
    ensures { IfOk result (λ words. words.items ≡ label token.now) }
{
    if token == b"x".as_slice() {
        return joined(alloc, &[b"a name"]);
    }
    if token == b"1".as_slice() {
        return joined(alloc, &[b"a number"]);
    }
    if token == b"\"t\"".as_slice() {
        return joined(alloc, &[b"a text"]);
    }
    quoted(alloc, token)
}

// Whether a token is told: it may stand there, and is told by no other one. What takes no parse is asked first.
fn is_told(alloc: Global, before: &[u8], line: u32, token: &[u8]) -> Result<bool, Memory>
    ensures { IfOk result (λ told. IsTrue told ↔ IsTold before.now line token.now) }
{
    if !is_own(alloc, before, token)? {
        return Ok(false);
    }
    if !is_other(alloc, before, line, token)? {
        return Ok(false);
    }
    may_stand(alloc, before, line, token)
}

// Whether a token is no other one there: what is no word of the edition is a name.
fn is_own(alloc: Global, before: &[u8], token: &[u8]) -> Result<bool, Memory>
    ensures { IfOk result (λ own. own ≡ is_own before.now token.now) }
{
    let source = trial(alloc, before, token)?;
    let is_name = is_name_there(source.as_slice(), token)?;
    Ok(token == b"x".as_slice() || !is_name)
}

// Whether a token is no number that is told as any number.
fn is_other(alloc: Global, before: &[u8], line: u32, token: &[u8]) -> Result<bool, Memory>
    ensures { IfOk result (λ other. IsTrue other ↔ IsOther before.now line token.now) }
{
    if is_two(token) {
        lacks_number(alloc, before, line)
    } else {
        Ok(true)
    }
}

// Whether no number may stand behind a text.
fn lacks_number(alloc: Global, before: &[u8], line: u32) -> Result<bool, Memory>
    ensures { IfOk result (λ lacks. IsTrue lacks ↔ (MayStand before.now line (codes "1") → ⊥)) }
{
    let number = may_stand(alloc, before, line, b"1")?;
    Ok(!number)
}

fn is_two(token: &[u8]) -> bool
    ensures { result ≡ pointwise nat_eq token.now (codes "2") }
{
    token == b"2".as_slice()
}

// Whether a token may stand behind a text.
fn may_stand(alloc: Global, before: &[u8], line: u32, token: &[u8]) -> Result<bool, Memory>
    ensures { IfOk result (λ stands. IsTrue stands ↔ MayStand before.now line token.now) }
{
    let source = trial(alloc, before, token)?;
    let stands = stands(alloc, source.as_slice(), line)?;
    Ok(stands)
}

// The source in which a token is tried.
fn trial<'w>(alloc: Global, text: &'w [u8], token: &'w [u8]) -> Result<Vec<u8>, Memory>
    ensures { IfOk result (λ source. source.items ≡ trial text.now token.now) }
{
    joined(alloc, &[text, b"\n", token])
}

// Whether these bytes are a name in a source.
fn is_name_there(source: &[u8], word: &[u8]) -> Result<bool, Memory>
    ensures { IfOk result (λ is. is ≡ is_name_there source.now word.now) }
{
    if source.len() > MOST_BYTES {
        return Err(Memory);
    }
    Ok(is_name(word) && !is_reserved(Lexer::new(source).edition(), word))
}

// Whether a source is not refused at the front of the line behind this one.

fn stands(alloc: Global, source: &[u8], line: u32) -> Result<bool, Memory>
    ensures { IfOk result (λ stands. IsTrue stands ↔ (IsRefusedBehind source.now line → ⊥)) }
{
    if source.len() > MOST_BYTES {
        return Err(Memory);
    }
    match parse(alloc, source) {
        Ok(_program) => Ok(true),
        Err(Refusal::Fault(fault)) => Ok(!is_place(fault.place, front_behind(line))),
        Err(Refusal::Memory) => Err(Memory),
    }
}

// The front of the line behind this one.
fn front_behind(line: u32) -> Place
    ensures { result ≡ front_behind line }
{
    Place {
        line: line.saturating_add(1),
        column: 1,
    }
}

// One token of each kind, in the order in which they are told.
fn tried() -> &'static [&'static [u8]]
    ensures { map (λ token. token.now) result.now ≡ tried }
{
    &[
        b";",
        b")",
        b"]",
        b":=",
        b"{",
        b"}",
        b".",
        b":",
        b"by",
        b"within",
        b"error",
        b"from",
        b"to",
        b"size",
        b"(",
        b"x",
        b"1",
        b"2",
        b"\"t\"",
        b",",
        b"program",
        b"process",
        b"end",
        b"edition",
        b"print",
        b"if",
        b"while",
        b"ensure",
        b"call",
        b"var",
        b"send",
        b"receive",
        b"converse",
        b"fail",
        b"else",
        b"procedure",
        b"channel",
        b"conversation",
        b"[",
        b"+",
        b"-",
        b"*",
        b"/",
        b"%",
        b"=",
        b"<>",
        b"<",
        b"<=",
        b">",
        b">=",
        b"and",
        b"or",
        b"not",
        b"prior",
        b"every",
        b"some",
        b"sum",
        b"all",
    ]
}
