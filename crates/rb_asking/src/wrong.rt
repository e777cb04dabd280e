//! What was wrong with a word, or with the number of words.
ghost use Rattle.std.specs.Prelude.{◌≡◌, ◌++◌, ◌==◌, codes, cond, map, option_map, Some, IfOk, OnOk};
ghost use Rattle.rb_asking.specs.Guides.{guide_of};
ghost use Rattle.rb_asking.specs.Misasked.{meant, misnamed_text, no_command, no_number, no_word, takes_words, too_few, too_many};

use crate::guides::Guide;
use crate::rows::{push, push_bytes, push_listed, push_taken, push_usages};
use rb_base::Memory;
use rb_near::nearest;
use rb_words::is_plain;
use std::alloc::Global;

// What a command takes that has a number.
const NO_NUMBER: &str = "` takes a NUMBER of at most twenty digits and 64 bits\n";

/// What is told of a name of nothing, where these are the names of all things of a kind.
pub fn misnamed(
    alloc: Global,
    kind: &str,
    program: &str,
    names: &[&[u8]],
    name: &str,
) -> Result<Vec<u8>, Memory>
    ensures { IfOk result (λ told. told.items ≡ misnamed_text kind.now program.now (map (λ n. n.now) names.now) name.now) }
{
    let mut told = Vec::new(alloc);
    push_misnamed(&mut told, kind, program, names, name)?;
    Ok(told)
}

#[tactic(auto, unfolding(crate::specs::Misasked::misnamed_text))]
fn push_misnamed(
    told: &mut Vec<u8>,
    kind: &str,
    program: &str,
    names: &[&[u8]],
    name: &str,
) -> Result<(), Memory>
    ensures { OnOk result (told.new.items ≡ told.old.items ++ misnamed_text kind.now program.now (map (λ n. n.now) names.now) name.now) }
{
    push(told, &[program, ": there is no ", kind, " `", name, "`"])?;
    push_meant(told, nearest(name.as_bytes(), names))?;
    push(told, &["\n"])?;
    Ok(())
}

// The name that was meant, if it is known.
#[tactic(auto, unfolding(crate::specs::Misasked::meant))]
fn push_meant(told: &mut Vec<u8>, name: Option<&[u8]>) -> Result<(), Memory>
    ensures { OnOk result (told.new.items ≡ told.old.items ++ meant (option_map (λ n. n.now) name.entry)) }
{
    match name {
        None => Ok(()),
        Some(name) => push_known(told, name),
    }
}

fn push_known(told: &mut Vec<u8>, name: &[u8]) -> Result<(), Memory>
    ensures { OnOk result (told.new.items ≡ told.old.items ++ meant (Some name.now)) }
{
    push(told, &["; did you mean `"])?;
    push_bytes(told, name)?;
    push(told, &["`?"])?;
    Ok(())
}

/// That a first word is no command.
#[tactic(auto, unfolding(crate::specs::Misasked::no_command))]
pub(crate) fn push_no_command(
    alloc: Global,
    told: &mut Vec<u8>,
    guides: &[Guide],
    program: &str,
    name: &str,
) -> Result<(), Memory>
    ensures { OnOk result (told.new.items ≡ told.old.items ++ no_command (map guide_of guides.now) program.now name.now) }
{
    if !is_plain(name) {
        return push_no_word(told, program, name);
    }
    let names = names_of(alloc, guides)?;
    push_misnamed(told, "command", program, names.as_slice(), name)?;
    push_usages(told, guides)
}

// The names of the commands.
fn names_of(alloc: Global, guides: &[Guide]) -> Result<Vec<&'static [u8]>, Memory>
    ensures { IfOk result (λ names. map (λ n. n.now) names.items ≡ map (λ guide. guide.name) (map guide_of guides.now)) }
{
    let mut names = Vec::new(alloc);
    for guide in guides {
        names.push(guide.name.as_bytes())?;
    }
    Ok(names)
}

/// That a word is empty or begins with `-`.
#[tactic(auto, unfolding(crate::specs::Misasked::no_word))]
pub(crate) fn push_no_word(told: &mut Vec<u8>, program: &str, word: &str) -> Result<(), Memory>
    ensures { OnOk result (told.new.items ≡ told.old.items ++ no_word program.now word.now) }
{
    push(
        told,
        &[program, ": `", word, "` is no word for a command\n"],
    )
}

// What a command takes.
#[tactic(auto, unfolding(crate::specs::Misasked::takes_words))]
fn push_takes(told: &mut Vec<u8>, program: &str, guide: Guide) -> Result<(), Memory>
    ensures { OnOk result (told.new.items ≡ told.old.items ++ takes_words program.now (guide_of guide)) }
{
    push(told, &[program])?;
    push(told, &[": `", guide.name, "` takes "])?;
    push_taken(told, guide.takes, guide.last)
}

/// That a command has too few words, of which these are missing.
#[tactic(auto, unfolding(crate::specs::Misasked::too_few))]
pub(crate) fn push_too_few(
    told: &mut Vec<u8>,
    program: &str,
    guide: Guide,
    missing: &[&str],
) -> Result<(), Memory>
    ensures { OnOk result
        (told.new.items ≡ told.old.items ++ too_few program.now (guide_of guide) (map (λ word. word.now) missing.now)) }
{
    push_takes(told, program, guide)?;
    push(told, &["; "])?;
    push_listed(told, missing)?;
    push(told, &[are_missing(missing.len())])
}

// How a sentence ends that says of so many words that they are missing.
fn are_missing(count: usize) -> &'static str
    ensures { result.now ≡ cond (count == 1) (codes " is missing\n") (codes " are missing\n") }
{
    if count == 1 {
        " is missing\n"
    } else {
        " are missing\n"
    }
}

/// That a command has too many words.
#[tactic(auto, unfolding(crate::specs::Misasked::too_many))]
pub(crate) fn push_too_many(told: &mut Vec<u8>, program: &str, guide: Guide) -> Result<(), Memory>
    ensures { OnOk result (told.new.items ≡ told.old.items ++ too_many program.now (guide_of guide)) }
{
    push_takes(told, program, guide)?;
    push(told, &[", and no more\n"])
}

/// That the number that a command has is none.
#[tactic(auto, unfolding(crate::specs::Misasked::no_number))]
pub(crate) fn push_no_number(told: &mut Vec<u8>, program: &str, guide: Guide) -> Result<(), Memory>
    ensures { OnOk result (told.new.items ≡ told.old.items ++ no_number program.now (guide_of guide)) }
{
    push(told, &[program])?;
    push(told, &[": `", guide.name, NO_NUMBER])?;
    Ok(())
}
