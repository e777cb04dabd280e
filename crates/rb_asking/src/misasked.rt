//! What was wrong with words that ask for nothing; or how the commands are used, or the version, where the words ask for that.
ghost use Rattle.std.specs.Prelude.{◌≡◌, ◌≤◌, ◌++◌, ◌∷◌, drop, length, map, option_map, string_bytes, not, IfOk, OnOk};
ghost use Rattle.std.specs.List.{find};
ghost use Rattle.rb_words.specs.Plain.{is_plain_word};
ghost use Rattle.rb_asking.specs.Guides.{guide_of};
ghost use Rattle.rb_asking.specs.Misasked.{asked_help, command_missing, command_text, guide_named, is_version_alone, last_count, misasked_text, miscounted};

use crate::guides::Guide;
use crate::helping::{guide_named, push_help, push_version};
use crate::leading::{is_help, is_help_alone, is_version};
use crate::rows::{push, push_usages};
use crate::words::Words;
use crate::wrong::{push_no_command, push_no_number, push_no_word, push_too_few, push_too_many};
use rb_base::Memory;
use rb_words::is_plain;
use std::alloc::Global;

/// What is told of words that ask a program of this name, which has these commands, for nothing: what was wrong with them; or how the commands are
/// used, or the version, where they ask for that.
pub fn misasked(
    alloc: Global,
    guides: &[Guide],
    program: &str,
    words: &Words,
) -> Result<Vec<u8>, Memory>
    ensures { IfOk result (λ told. told.items ≡ misasked_text (map guide_of guides.now) program.now words.now) }
{
    let mut told = Vec::new(alloc);
    push_misasked(alloc, &mut told, guides, program, words.list())?;
    Ok(told)
}

fn push_misasked(
    alloc: Global,
    told: &mut Vec<u8>,
    guides: &[Guide],
    program: &str,
    words: &[String],
) -> Result<(), Memory>
    ensures { OnOk result
        (told.new.items ≡ told.old.items ++ misasked_text (map guide_of guides.now) program.now (map string_bytes words.now)) }
{
    match words {
        [] => push_missing(told, guides, program),
        [first, rest @ ..] => push_led(alloc, told, guides, program, first.as_str(), rest),
    }
}

// What is told of a first word and those behind it.
fn push_led(
    alloc: Global,
    told: &mut Vec<u8>,
    guides: &[Guide],
    program: &str,
    first: &str,
    rest: &[String],
) -> Result<(), Memory>
    ensures { OnOk result
        (told.new.items ≡ told.old.items ++ misasked_text (map guide_of guides.now) program.now (first.now ∷ map string_bytes rest.now)) }
{
    if is_help(first) {
        push_asked_help(alloc, told, guides, program, rest)
    } else if is_help_alone(rest) {
        push_help(alloc, told, guides, program, Some(first))
    } else if is_version_alone(first, rest) {
        push_version(told, program)
    } else {
        push_command(alloc, told, guides, program, first, rest)
    }
}

// Whether a first word asks for the version, and nothing is behind it.
fn is_version_alone(first: &str, rest: &[String]) -> bool
    ensures { result ≡ is_version_alone first.now (map string_bytes rest.now) }
{
    match rest {
        [] => is_version(first),
        _ => false,
    }
}

#[tactic(auto, unfolding(crate::specs::Misasked::command_missing))]
fn push_missing(told: &mut Vec<u8>, guides: &[Guide], program: &str) -> Result<(), Memory>
    ensures { OnOk result (told.new.items ≡ told.old.items ++ command_missing (map guide_of guides.now) program.now) }
{
    push(told, &[program, ": a command is missing\n"])?;
    push_usages(told, guides)?;
    Ok(())
}

// Help for all commands, or for the one that the first of these words names.
fn push_asked_help(
    alloc: Global,
    told: &mut Vec<u8>,
    guides: &[Guide],
    program: &str,
    words: &[String],
) -> Result<(), Memory>
    ensures { OnOk result
        (told.new.items ≡ told.old.items ++ asked_help (map guide_of guides.now) program.now (map string_bytes words.now)) }
{
    match words {
        [] => push_help(alloc, told, guides, program, None),
        [name, ..] => push_help(alloc, told, guides, program, Some(name.as_str())),
    }
}

// What was wrong with a first word and those behind it.
fn push_command(
    alloc: Global,
    told: &mut Vec<u8>,
    guides: &[Guide],
    program: &str,
    name: &str,
    words: &[String],
) -> Result<(), Memory>
    ensures { OnOk result
        (told.new.items ≡ told.old.items
        ++ command_text (map guide_of guides.now) program.now name.now (map string_bytes words.now)
        (guide_named (map guide_of guides.now) name.now)) }
{
    match guide_named(guides, name) {
        None => push_no_command(alloc, told, guides, program, name),
        Some(guide) => match first_unplain(words) {
            Some(word) => push_no_word(told, program, word),
            None => push_miscounted(told, program, guide, words.len()),
        },
    }
}

// The first of these words that is empty or begins with `-`.
fn first_unplain(words: &[String]) -> Option<&str>
    ensures { option_map (λ word. word.now) result ≡ find (λ word. not (is_plain_word word)) (map string_bytes words.now) }
{
    let mut rest = words;
    while let [word, after @ ..] = rest {
        if !is_plain(word.as_str()) {
            return Some(word.as_str());
        }
        rest = after;
    }
    None
}

// What was wrong with a command that has so many words.
fn push_miscounted(
    told: &mut Vec<u8>,
    program: &str,
    guide: Guide,
    count: usize,
) -> Result<(), Memory>
    ensures { OnOk result (told.new.items ≡ told.old.items ++ miscounted program.now (guide_of guide) count) }
{
    if count < guide.takes.len() {
        push_too_few(told, program, guide, missing(guide, count))
    } else if count - guide.takes.len() > last_count(guide.last) {
        push_too_many(told, program, guide)
    } else {
        push_no_number(told, program, guide)
    }
}

// The words that are missing behind so many.
fn missing(guide: Guide, count: usize) -> &'static [&'static str]
    requires { count ≤ length guide.takes.now }
    ensures { result.now ≡ drop count guide.takes.now }
{
    &guide.takes[count..]
}

// How many words may be left out.
fn last_count(last: Option<&str>) -> usize
    ensures { result ≡ last_count (option_map (λ word. word.now) last.entry) }
{
    if last.is_some() { 1 } else { 0 }
}
