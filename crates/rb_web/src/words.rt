//! Words that stand one behind another, each ended by a byte 0.
ghost use Rattle.std.specs.Prelude.{◌≡◌, ℕ, List, IfOk, MatchOption};
ghost use Rattle.rb_web.specs.Asked.{AreWords};

use rb_asking::Words;
use rb_base::Memory;
use std::alloc::Global;

/// The text of words, each ended by a byte 0. None where the bytes are no UTF-8, or the last word is not ended.
pub fn text_of_words(bytes: &[u8]) -> Option<&str>
    ensures { MatchOption result ((words : List (List ℕ)) → AreWords bytes.now words → ⊥)
        (λ text. (text.now ≡ bytes.now) × ((words : List (List ℕ)) × AreWords text.now words)) }
{
    let Ok(text) = str::from_utf8(bytes) else {
        return None;
    };
    let mut rest = text;
    while let Some((_word, behind)) = rest.split_once('\0') {
        rest = behind;
    }
    if !rest.is_empty() {
        return None;
    }
    Some(text)
}

/// The words of such a text.
pub fn words_in(alloc: Global, text: &str) -> Result<Words, Memory>
    requires { (words : List (List ℕ)) × AreWords text.now words }
    ensures { IfOk result (AreWords text.now) }
{
    let mut words = Words::new(alloc);
    let mut rest = text;
    while let Some((word, behind)) = rest.split_once('\0') {
        words.push(word)?;
        rest = behind;
    }
    Ok(words)
}
