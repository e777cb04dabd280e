//! Words that are no options.
ghost use Rattle.std.specs.Prelude.{◌≡◌, string_bytes};
ghost use Rattle.std.specs.List.{list_all};
ghost use Rattle.rb_words.specs.Plain.{is_plain_word};

/// Whether none of these words is empty or has `-` at its front.
pub fn are_plain(words: &[String]) -> bool
    ensures { result ≡ list_all (λ word. is_plain_word (string_bytes word)) words.now }
{
    for word in words {
        if !is_plain(word.as_str()) {
            return false;
        }
    }
    true
}

/// Whether a word is not empty and has no `-` at its front.
pub fn is_plain(word: &str) -> bool
    ensures { result ≡ is_plain_word word.now }
{
    match word.as_bytes() {
        [] => false,
        [first, ..] => *first != b'-',
    }
}
