//! A command that takes words by their places.
ghost use Rattle.std.specs.Prelude.{◌≡◌, IfOk, [], false, map};
ghost use Rattle.clap.specs.Words.{app_of};
ghost use Rattle.clap.specs.declared.builder.command.Command.TheViews.{out-Command as fields_of};
ghost use Rattle.rb_words.specs.Leaf.{command_and_last, command_with};

use clap::{Arg, Command};
use std::alloc::{AllocError, Global};

/// A command that takes as many words as these, which name them.
pub fn command_with<'a>(
    alloc: Global,
    name: &'a str,
    words: &[&'a str],
) -> Result<Command<'a>, AllocError>
    ensures app { IfOk result (λ command. app_of command ≡ record { top = command_with name.entry.now (map (λ w. w.now) words.now); subs = [] }) }
    ensures local { IfOk result (λ command. (fields_of command).has_globals ≡ false) }
{
    let mut command = Command::new(alloc, name);
    for word in words {
        command = command.arg(Arg::new(alloc, word).required(true))?;
    }
    Ok(command)
}

/// A command that takes as many words as these, which name them, and one more that may be left out.
pub fn command_and_last<'a>(
    alloc: Global,
    name: &'a str,
    words: &[&'a str],
    last: &'a str,
) -> Result<Command<'a>, AllocError>
    ensures app { IfOk result (λ command. app_of command
        ≡ record { top = command_and_last name.entry.now (map (λ w. w.now) words.now) last.entry.now; subs = [] }) }
    ensures local { IfOk result (λ command. (fields_of command).has_globals ≡ false) }
{
    command_with(alloc, name, words)?.arg(Arg::new(alloc, last))
}
