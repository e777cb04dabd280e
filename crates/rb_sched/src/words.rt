//! The lines of a text and the words of a line, cut off one by one. Records have lines of the same form.

ghost use Rattle.std.specs.Prelude.{◌≡◌, ◌<◌, ◌≤◌, ◌∷◌, [], ◌++◌, List, ℕ, length, take, drop, MatchOption};
ghost use Rattle.rb_sched.specs.Schedule.{lines_of, words_from, end_word, is_space, without_cr, without_comment};

/// The first line of a text that isn't empty, without its LF, and the text after it.
pub fn first_line(text: &[u8]) -> (&[u8], &[u8])
    requires { 0 < length text.now }
    ensures lines { lines_of text.now ≡ result.0.now ∷ lines_of result.1.now }
    ensures shorter { length result.1.now < length text.now }
{
    let mut length = 0;
    let mut rest = text;
    while let [byte, after @ ..] = rest {
        if *byte == b'\n' {
            return (&text[..length], after);
        }
        length += 1;
        rest = after;
    }
    (text, rest)
}

/// A line without the CR that may end it.
#[tactic(auto, using(crate::proofs::Cuts::without_cr_at))]
pub fn without_cr(line: &[u8]) -> &[u8]
    ensures { result.now ≡ without_cr line.now }
{
    line.strip_suffix(b"\r").unwrap_or(line)
}

/// A line up to the `#` of its comment, if it has one.
pub fn without_comment(line: &[u8]) -> &[u8]
    ensures { result.now ≡ without_comment line.now }
{
    let mut length = 0;
    let mut rest = line;
    while let [byte, after @ ..] = rest {
        if *byte == b'#' {
            return &line[..length];
        }
        length += 1;
        rest = after;
    }
    line
}

fn is_space(byte: u8) -> bool
    ensures { result ≡ is_space byte }
{
    byte == b' ' || byte == b'\t'
}

/// How many bytes stand before the first space.
fn word_length(line: &[u8]) -> usize
    ensures word { (word : List ℕ) →
        words_from word line.now ≡ end_word (word ++ take result line.now) (words_from [] (drop result line.now)) }
    ensures within { result ≤ length line.now }
{
    let mut length = 0;
    let mut rest = line;
    while let [byte, after @ ..] = rest {
        if is_space(*byte) {
            return length;
        }
        length += 1;
        rest = after;
    }
    length
}

/// The first word, and what follows it.
pub fn next_word(line: &[u8]) -> Option<(&[u8], &[u8])>
    ensures { let words = words_from [] line.now in
        MatchOption result (words ≡ []) (λ cut. words ≡ cut.0.now ∷ words_from [] cut.1.now) }
{
    let mut rest = line;
    while let [byte, after @ ..] = rest {
        if !is_space(*byte) {
            return Some(rest.split_at(1 + word_length(after)));
        }
        rest = after;
    }
    None
}
