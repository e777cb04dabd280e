//! How the commands are used, and the version.
ghost use Rattle.std.specs.Prelude.{◌≡◌, ◌++◌, map, option_map, IfOk, OnOk};
ghost use Rattle.rb_asking.specs.Guides.{guide_of};
ghost use Rattle.rb_asking.specs.Misasked.{guide_named, help_of, help_text, version_text};

use crate::guides::Guide;
use crate::rows::{push, push_help_rows, push_helps};
use crate::wrong::push_no_command;
use rb_base::Memory;
use std::alloc::Global;

// What is told of the version, behind the name of the program.
const VERSION: &str =
    " 1.0.0, of rattle-kit-13f: each function is proved to meet its contract, where rt built it ";

const UNPROVED: &str =
    "(a program that was compiled without proofs says `not proved` beside this line)\n";

/// How all commands of this program are used, or the one of a name. A name of no command is told as one.
pub fn help(
    alloc: Global,
    guides: &[Guide],
    program: &str,
    name: Option<&str>,
) -> Result<Vec<u8>, Memory>
    ensures { IfOk result (λ told. told.items ≡ help_text (map guide_of guides.now) program.now (option_map (λ word. word.now) name.entry)) }
{
    let mut told = Vec::new(alloc);
    push_help(alloc, &mut told, guides, program, name)?;
    Ok(told)
}

/// Which version this program is.
pub fn version(alloc: Global, program: &str) -> Result<Vec<u8>, Memory>
    ensures { IfOk result (λ told. told.items ≡ version_text program.now) }
{
    let mut told = Vec::new(alloc);
    push_version(&mut told, program)?;
    Ok(told)
}

/// The command of a name.
pub fn guide_named(guides: &[Guide], name: &str) -> Option<Guide>
    ensures { option_map guide_of result ≡ guide_named (map guide_of guides.now) name.now }
{
    let mut rest = guides;
    while let [guide, after @ ..] = rest {
        if guide.name == name {
            return Some(*guide);
        }
        rest = after;
    }
    None
}

// Help for all commands, or for the one that is named.
pub(crate) fn push_help(
    alloc: Global,
    told: &mut Vec<u8>,
    guides: &[Guide],
    program: &str,
    name: Option<&str>,
) -> Result<(), Memory>
    ensures { OnOk result (told.new.items
        ≡ told.old.items ++ help_text (map guide_of guides.now) program.now (option_map (λ word. word.now) name.entry)) }
{
    match name {
        None => push_helps(told, guides),
        Some(name) => push_help_of(alloc, told, guides, program, name),
    }
}

// Help for the command of a name, if there is one.
fn push_help_of(
    alloc: Global,
    told: &mut Vec<u8>,
    guides: &[Guide],
    program: &str,
    name: &str,
) -> Result<(), Memory>
    ensures { OnOk result (told.new.items ≡ told.old.items
        ++ help_of (map guide_of guides.now) program.now name.now (guide_named (map guide_of guides.now) name.now)) }
{
    match guide_named(guides, name) {
        None => push_no_command(alloc, told, guides, program, name),
        Some(guide) => push_help_rows(told, guide),
    }
}

#[tactic(auto, unfolding(crate::specs::Misasked::version_text))]
pub(crate) fn push_version(told: &mut Vec<u8>, program: &str) -> Result<(), Memory>
    ensures { OnOk result (told.new.items ≡ told.old.items ++ version_text program.now) }
{
    push(told, &[program, VERSION, UNPROVED])
}
