//! Which names are declared around a place, seen from the tokens alone: those before it, and those from it on.

ghost use Rattle.std.specs.Prelude.{◌≡◌, ◌++◌, false, [], map, IfOk};
ghost use Rattle.rb_lex.specs.Reader.{lexeme_of};
ghost use Rattle.rb_why.specs.Open.{last_of};
ghost use Rattle.rb_why.specs.Scope.{begins_scope, ending_words, is_declared, is_head_behind, kept_behind, later_procedures, named_behind, names_around, opened_behind, process_words, program_words, seen_behind};

use crate::listed::is_among;
use crate::open::innermost_open;
use rb_base::Memory;
use rb_base::bytes::is_name;
use rb_lex::Token;
use std::alloc::Global;

/// The names that are declared around a place, the innermost last: those of the program, the procedures of the process that are declared
/// further down, and those that are seen there. The names of quantified expressions are none of them.
pub(crate) fn names_around<'a>(
    alloc: Global,
    before: &[Token<'a>],
    behind: &[Token<'a>],
) -> Result<Vec<Token<'a>>, Memory>
    ensures { IfOk result (λ names. map lexeme_of names.items ≡ names_around (map lexeme_of before.now) (map lexeme_of behind.now)) }
{
    let names = with_named(Vec::new(alloc), program_words(), &[], behind)?;
    let names = with_named(names, program_words(), &[], before)?;
    let names = with_later(alloc, names, before, behind)?;
    seen_behind(alloc, names, before)
}

/// The names with the tokens right behind one of these words, up to one of those that end what is looked at.
#[tactic(auto, using(crate::proofs::Declaring::name_pushed))]
pub(crate) fn with_named<'a>(
    names: Vec<Token<'a>>,
    words: &[&[u8]],
    ends: &[&[u8]],
    tokens: &[Token<'a>],
) -> Result<Vec<Token<'a>>, Memory>
    ensures { IfOk result (λ all. map lexeme_of all.items ≡ map lexeme_of names.entry.items
        ++ named_behind (map (λ word. word.now) words.now) (map (λ word. word.now) ends.now) [] (map lexeme_of tokens.now)) }
{
    let mut all = names;
    let mut before: &[u8] = &[];
    let mut rest = tokens;
    while let [token, after @ ..] = rest {
        if is_among(ends, token.text) {
            return Ok(all);
        }
        if is_among(words, before) {
            all.push(*token)?;
        }
        before = token.text;
        rest = after;
    }
    Ok(all)
}

// The names with the procedures of the process around the place that are declared further down.
fn with_later<'a>(
    alloc: Global,
    names: Vec<Token<'a>>,
    before: &[Token<'_>],
    behind: &[Token<'a>],
) -> Result<Vec<Token<'a>>, Memory>
    ensures { IfOk result (λ all. map lexeme_of all.items ≡ map lexeme_of names.entry.items
        ++ later_procedures (map lexeme_of before.now) (map lexeme_of behind.now)) }
{
    if innermost_open(alloc, before)?.is_some() {
        with_named(names, &[b"procedure"], ending_words(), behind)
    } else {
        Ok(names)
    }
}

// The names that are seen behind tokens, the innermost last, where these were seen before.
fn seen_behind<'a>(
    alloc: Global,
    names: Vec<Token<'a>>,
    tokens: &[Token<'a>],
) -> Result<Vec<Token<'a>>, Memory>
    ensures { IfOk result (λ seen. map lexeme_of seen.items ≡
        seen_behind false [] [] (map lexeme_of names.entry.items) (map lexeme_of tokens.now)) }
{
    let mut seen = names;
    // how many names were declared before each scope that is open
    let mut opened = Vec::new(alloc);
    let mut in_head = false;
    let mut before: &[u8] = &[];
    let mut rest = tokens;
    while let [token, after @ ..] = rest {
        let begins = begins_scope(in_head, token.text);
        let declares = is_declared(in_head, before, token.text);
        let outer = last_count(opened.as_slice());
        opened = opened_behind(opened, begins, seen.len(), token.text)?;
        seen = kept_behind(seen, outer, declares, token)?;
        in_head = is_head_behind(in_head, token.text);
        before = token.text;
        rest = after;
    }
    Ok(seen)
}

// How many names were declared before each scope that is open, behind a token of this text: one begins there or not.
fn opened_behind(
    opened: Vec<usize>,
    begins: bool,
    seen: usize,
    text: &[u8],
) -> Result<Vec<usize>, Memory>
    ensures { IfOk result (λ now. now.items ≡ opened_behind opened.items begins seen text.now) }
{
    let mut now = opened;
    if text == b"}".as_slice() {
        let _ended = now.pop();
    } else if begins {
        now.push(seen)?;
    }
    Ok(now)
}

// The names that are seen behind a token, the innermost last: it is declared there or not.
#[tactic(auto, using(crate::proofs::Declaring::name_kept, crate::proofs::Declaring::names_left))]
fn kept_behind<'a>(
    names: Vec<Token<'a>>,
    seen: Option<usize>,
    declares: bool,
    token: &Token<'a>,
) -> Result<Vec<Token<'a>>, Memory>
    ensures { IfOk result (λ now. map lexeme_of now.items ≡
        kept_behind (map lexeme_of names.entry.items) seen declares (lexeme_of token.now)) }
{
    let mut now = names;
    if token.text == b"}".as_slice() {
        if let Some(seen) = seen {
            now.truncate(seen);
        }
    } else if declares {
        now.push(*token)?;
    }
    Ok(now)
}

fn last_count(counts: &[usize]) -> Option<usize>
    ensures { result ≡ last_of counts.now }
{
    counts.get(counts.len().saturating_sub(1)).copied()
}

// Whether the head of a procedure is read behind a token: from its word to the `{` of its block.
fn is_head_behind(in_head: bool, text: &[u8]) -> bool
    ensures { result ≡ is_head_behind in_head text.now }
{
    text == b"procedure".as_slice() || in_head && text != b"{".as_slice()
}

// Whether a scope begins at a token: at the `(` of a head, whose names are those of the block too, and at each other `{`.
fn begins_scope(in_head: bool, text: &[u8]) -> bool
    ensures { result ≡ begins_scope in_head text.now }
{
    if in_head {
        text == b"(".as_slice()
    } else {
        text == b"{".as_slice()
    }
}

// Whether a token declares a name in a process, behind this text: a variable, a procedure or a parameter.
fn is_declared(in_head: bool, before: &[u8], text: &[u8]) -> bool
    ensures { result ≡ is_declared in_head before.now text.now }
{
    is_name(text)
        && (is_among(process_words(), before) || in_head && is_among(&[b"(", b","], before))
}

// The words behind which a name is declared in a program.
fn program_words() -> &'static [&'static [u8]]
    ensures { map (λ word. word.now) result.now ≡ program_words }
{
    &[b"process", b"channel", b"conversation"]
}

// Those behind which one is declared in a process.
fn process_words() -> &'static [&'static [u8]]
    ensures { map (λ word. word.now) result.now ≡ process_words }
{
    &[b"var", b"procedure"]
}

// What ends a process.
fn ending_words() -> &'static [&'static [u8]]
    ensures { map (λ word. word.now) result.now ≡ ending_words }
{
    &[b"process", b"end"]
}
