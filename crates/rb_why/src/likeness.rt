//! What a text reads like, where another one is wanted.

ghost use Rattle.std.specs.Prelude.{◌≡◌, option_map};
ghost use Rattle.rb_sched.specs.Schedule.{lines_of};
ghost use Rattle.rb_why.specs.Likeness.{begins_source, first_word, first_words, is_counted, is_process, reads_like_schedule, reads_like_source};

use crate::words::{from_word, word_at};
use rb_base::Names;
use rb_base::bytes::is_name;
use rb_base::numbers::is_number;
use rb_sched::words::{first_line, without_comment, without_cr};

/// Whether a text reads like a source: its first word that stands in no comment is `program` or `edition`, and no process has that name. The
/// names are those of the processes that the text may speak of, where there are some.
pub(crate) fn reads_like_source(text: &[u8], names: Option<&Names>) -> bool
    ensures { result ≡ reads_like_source (option_map (λ n. n.now) names.entry) text.now }
{
    let word = first_word(text);
    begins_source(word) && !is_process(word, names)
}

// The first word that stands in no comment.
fn first_word(text: &[u8]) -> &[u8]
    ensures { result.now ≡ first_word text.now }
{
    word_at(first_words(text), 0)
}

// Whether a process has this name, where it is known which processes there are.
fn is_process(word: &[u8], names: Option<&Names>) -> bool
    ensures { result ≡ is_process (option_map (λ n. n.now) names.entry) word.now }
{
    match names {
        Some(names) => names.process(word).is_some(),
        None => false,
    }
}

/// Whether a text reads like a schedule: the first line that has words has a name and a number.
pub(crate) fn reads_like_schedule(text: &[u8]) -> bool
    ensures { result ≡ reads_like_schedule text.now }
{
    is_counted(first_words(text))
}

// Whether a line has a name, a number and no more.
fn is_counted(line: &[u8]) -> bool
    ensures { result ≡ is_counted line.now }
{
    let name = word_at(line, 0);
    is_name(name)
        && is_number(word_at(line, 1))
        && from_word(line, 2).is_empty()
        && !begins_source(name)
}

fn begins_source(word: &[u8]) -> bool
    ensures { result ≡ begins_source word.now }
{
    word == b"program".as_slice() || word == b"edition".as_slice()
}

// The first line that has words, without its comment and its CR.
fn first_words(text: &[u8]) -> &[u8]
    ensures { result.now ≡ first_words (lines_of text.now) }
{
    let mut rest = text;
    while !rest.is_empty() {
        let (line, after) = first_line(rest);
        let words = without_comment(without_cr(line));
        if !from_word(words, 0).is_empty() {
            return words;
        }
        rest = after;
    }
    rest
}
