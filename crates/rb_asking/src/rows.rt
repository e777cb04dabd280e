//! A command with its words, as it is shown.
ghost use Rattle.std.specs.Prelude.{◌≡◌, ◌++◌, [], map, option_map, OnOk};
ghost use Rattle.std.specs.List.{flat_map};
ghost use Rattle.rb_asking.specs.Guides.{guide_of};
ghost use Rattle.rb_asking.specs.Misasked.{between, help_rows, listed, perhaps, spaced, spaced_last, taken, usage, usage_row};

use crate::guides::Guide;
use rb_base::Memory;

/// Puts pieces at the end of a text, in their order.
pub(crate) fn push(text: &mut Vec<u8>, pieces: &[&str]) -> Result<(), Memory>
    ensures { OnOk result (text.new.items ≡ text.old.items ++ flat_map (λ piece. piece.now) pieces.now) }
{
    let mut rest = pieces;
    while let [piece, after @ ..] = rest {
        text.extend_from_slice(piece.as_bytes())?;
        rest = after;
    }
    Ok(())
}

/// Puts bytes at the end of a text.
pub(crate) fn push_bytes(text: &mut Vec<u8>, bytes: &[u8]) -> Result<(), Memory>
    ensures { OnOk result (text.new.items ≡ text.old.items ++ bytes.now) }
{
    text.extend_from_slice(bytes)?;
    Ok(())
}

/// A line for each command.
pub(crate) fn push_usages(text: &mut Vec<u8>, guides: &[Guide]) -> Result<(), Memory>
    ensures { OnOk result (text.new.items ≡ text.old.items ++ flat_map usage_row (map guide_of guides.now)) }
{
    let mut rest = guides;
    while let [guide, after @ ..] = rest {
        push_usage_row(text, *guide)?;
        rest = after;
    }
    Ok(())
}

#[tactic(auto, unfolding(crate::specs::Misasked::usage_row))]
fn push_usage_row(text: &mut Vec<u8>, guide: Guide) -> Result<(), Memory>
    ensures { OnOk result (text.new.items ≡ text.old.items ++ usage_row (guide_of guide)) }
{
    push_usage(text, guide)?;
    push(text, &["\n"])
}

/// Each command with what it does, and an example.
pub(crate) fn push_helps(text: &mut Vec<u8>, guides: &[Guide]) -> Result<(), Memory>
    ensures { OnOk result (text.new.items ≡ text.old.items ++ flat_map help_rows (map guide_of guides.now)) }
{
    let mut rest = guides;
    while let [guide, after @ ..] = rest {
        push_help_rows(text, *guide)?;
        rest = after;
    }
    Ok(())
}

/// A command with what it does, and an example.
#[tactic(auto, unfolding(crate::specs::Misasked::help_rows))]
pub(crate) fn push_help_rows(text: &mut Vec<u8>, guide: Guide) -> Result<(), Memory>
    ensures { OnOk result (text.new.items ≡ text.old.items ++ help_rows (guide_of guide)) }
{
    push_usage(text, guide)?;
    push(text, &[": ", guide.does, "\n      ", guide.example, "\n"])
}

// A command with its words.
#[tactic(auto, unfolding(crate::specs::Misasked::usage))]
fn push_usage(text: &mut Vec<u8>, guide: Guide) -> Result<(), Memory>
    ensures { OnOk result (text.new.items ≡ text.old.items ++ usage (guide_of guide)) }
{
    push(text, &["  ", guide.name])?;
    push_spaced(text, guide.takes)?;
    push_last(text, guide.last)
}

#[tactic(auto, unfolding(crate::specs::Misasked::spaced))]
fn push_spaced(text: &mut Vec<u8>, words: &[&str]) -> Result<(), Memory>
    ensures { OnOk result (text.new.items ≡ text.old.items ++ flat_map spaced (map (λ word. word.now) words.now)) }
{
    let mut rest = words;
    while let [word, after @ ..] = rest {
        push(text, &[" ", word])?;
        rest = after;
    }
    Ok(())
}

#[tactic(auto, unfolding(crate::specs::Misasked::spaced_last))]
fn push_last(text: &mut Vec<u8>, last: Option<&str>) -> Result<(), Memory>
    ensures { OnOk result (text.new.items ≡ text.old.items ++ spaced_last (option_map (λ word. word.now) last.entry)) }
{
    match last {
        None => Ok(()),
        Some(word) => push(text, &[" [", word, "]"]),
    }
}

/// Words, as a sentence has them.
#[tactic(auto, unfolding(crate::specs::Misasked::listed))]
pub(crate) fn push_listed(text: &mut Vec<u8>, words: &[&str]) -> Result<(), Memory>
    ensures { OnOk result (text.new.items ≡ text.old.items ++ listed (map (λ word. word.now) words.now)) }
{
    let mut rest = words;
    while let [word, more @ ..] = rest {
        push(text, &[word])?;
        push(text, &[between(more)])?;
        rest = more;
    }
    Ok(())
}

// What stands between a word and those behind it.
#[tactic(auto, unfolding(crate::specs::Misasked::between))]
fn between(more: &[&str]) -> &'static str
    ensures { result.now ≡ between (map (λ word. word.now) more.now) }
{
    match more {
        [] => "",
        [_] => " and ",
        _ => ", ",
    }
}

/// The words that a command takes, if any, and one that may be left out.
#[tactic(auto, unfolding(crate::specs::Misasked::taken))]
pub(crate) fn push_taken(
    text: &mut Vec<u8>,
    takes: &[&str],
    last: Option<&str>,
) -> Result<(), Memory>
    ensures { OnOk result (text.new.items
        ≡ text.old.items ++ taken (map (λ word. word.now) takes.now) (option_map (λ word. word.now) last.entry)) }
{
    match takes {
        [] => push_only(text, last),
        _ => {
            push_listed(text, takes)?;
            push_perhaps(text, last)
        }
    }
}

// A word that may be left out, where there is no other.
#[tactic(auto, unfolding(crate::specs::Misasked::taken))]
fn push_only(text: &mut Vec<u8>, last: Option<&str>) -> Result<(), Memory>
    ensures { OnOk result (text.new.items ≡ text.old.items ++ taken [] (option_map (λ word. word.now) last.entry)) }
{
    match last {
        None => push(text, &["nothing"]),
        Some(word) => push(text, &[word, " or nothing"]),
    }
}

// A word that may be left out, behind others in a sentence.
#[tactic(auto, unfolding(crate::specs::Misasked::perhaps))]
fn push_perhaps(text: &mut Vec<u8>, last: Option<&str>) -> Result<(), Memory>
    ensures { OnOk result (text.new.items ≡ text.old.items ++ perhaps (option_map (λ word. word.now) last.entry)) }
{
    match last {
        None => Ok(()),
        Some(word) => push(text, &[" and perhaps ", word]),
    }
}
