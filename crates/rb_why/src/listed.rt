//! Words with commas between them.

ghost use Rattle.std.specs.Prelude.{◌≡◌, [], map, IfOk};
ghost use Rattle.rb_base.specs.Reserved.{is_one_of};
ghost use Rattle.rb_base.specs.Naming.{process_names};
ghost use Rattle.rb_why.specs.Listed.{listed, quoted, with_word};

use rb_base::{Memory, Names};
use rb_frame::joined::joined;
use std::alloc::Global;

/// The list with one more word.
pub(crate) fn with_word<'w>(
    alloc: Global,
    told: &'w [u8],
    word: &'w [u8],
) -> Result<Vec<u8>, Memory>
    ensures { IfOk result (λ words. words.items ≡ with_word told.now word.now) }
{
    if told.is_empty() {
        return joined(alloc, &[word]);
    }
    joined(alloc, &[told, b", ", word])
}

/// A word as it is quoted.
pub(crate) fn quoted(alloc: Global, word: &[u8]) -> Result<Vec<u8>, Memory>
    ensures { IfOk result (λ words. words.items ≡ quoted word.now) }
{
    joined(alloc, &[b"`", word, b"`"])
}

/// Whether a word is one of these.
pub(crate) fn is_among(words: &[&[u8]], word: &[u8]) -> bool
    ensures { result ≡ is_one_of (map (λ w. w.now) words.now) word.now }
{
    let mut rest = words;
    while let [other, after @ ..] = rest {
        if *other == word {
            return true;
        }
        rest = after;
    }
    false
}

/// The processes of a program, in the order of declaration.
pub(crate) fn processes_listed(alloc: Global, names: &Names) -> Result<Vec<u8>, Memory>
    ensures { IfOk result (λ words. words.items ≡ listed (process_names names.now) []) }
{
    let mut told = Vec::new(alloc);
    let mut rest = names.processes.as_slice();
    while let [process, after @ ..] = rest {
        let name = quoted(alloc, process.name.as_bytes())?;
        told = with_word(alloc, told.as_slice(), name.as_slice())?;
        rest = after;
    }
    Ok(told)
}

/// The names of the processes of a program, in the order of declaration.
#[tactic(auto, using(crate::proofs::Listing::text_pushed))]
pub(crate) fn process_texts<'n>(alloc: Global, names: &'n Names) -> Result<Vec<&'n [u8]>, Memory>
    ensures { IfOk result (λ texts. map (λ text. text.now) texts.items ≡ process_names names.now) }
{
    let mut texts = Vec::new(alloc);
    let mut rest = names.processes.as_slice();
    while let [process, after @ ..] = rest {
        texts.push(process.name.as_bytes())?;
        rest = after;
    }
    Ok(texts)
}
