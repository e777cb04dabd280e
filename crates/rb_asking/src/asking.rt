//! What the words of `rbl` ask for. They are read with `clap`.
ghost use Rattle.std.specs.Prelude.{◌≡◌, IfOk, option_and_then, option_map};
ghost use Rattle.clap.specs.Words.{app_of, first_of, first_value, found_of, subcommand_rows_of};
ghost use Rattle.rb_asking.specs.CommandLine.{asked_given, plainly, program};
ghost use Rattle.rb_asking.specs.Commands.{asked_of};

use crate::guides::command_guides;
use crate::line::{none_unless_memory, program_alone, with_commands};
use crate::number::trial_number;
use crate::words::Words;
use clap::{ArgMatches, Command};
use rb_base::Memory;
use rb_words::are_plain;
use std::alloc::{AllocError, Global};

/// A command with the words that it was given: the names of its files, in their order, or the number of a trial.
#[derive(Clone, Copy)]
pub enum Asked<'a> {
    /// `run SOURCE SCHEDULE`.
    Run(&'a str, &'a str),
    /// `survive SOURCE SCHEDULE`.
    Survive(&'a str, &'a str),
    /// `plain SOURCE RECORD`.
    Plain(&'a str, &'a str),
    /// `check SOURCE`.
    Check(&'a str),
    /// `code SOURCE`.
    Code(&'a str),
    /// `trial NUMBER`.
    Trial(u64),
    /// `compile SOURCE`.
    Compile(&'a str),
    /// `load IMAGE SCHEDULE`.
    Load(&'a str, &'a str),
    /// `session SOURCE SCHEDULE SESSION`.
    Session(&'a str, &'a str, &'a str),
    /// `domino HISTORY`.
    Domino(&'a str),
    /// `stuck SOURCE SCHEDULE`.
    Stuck(&'a str, &'a str),
}

/// What the words ask for, if they give a command. `Memory` may come for any words.
pub fn asked_for(alloc: Global, words: &Words) -> Result<Option<Asked<'_>>, Memory>
    ensures { IfOk result (λ asked. asked_of words.now ≡ option_map plainly asked) }
{
    let words = words.list();
    if !are_plain(words) {
        return Ok(None);
    }
    match command_line(alloc)?.try_get_matches_from(words) {
        Ok(matches) => Ok(asked_in(&matches)),
        Err(error) => none_unless_memory(error.kind()),
    }
}

// The program with its commands.
fn command_line<'a>(alloc: Global) -> Result<Command<'a>, AllocError>
    ensures { IfOk result (λ line. app_of line ≡ program) }
{
    with_commands(alloc, program_alone(alloc, "rbl"), command_guides())
}

// The command that was found, with its words.
fn asked_in<'a>(matches: &ArgMatches<'a>) -> Option<Asked<'a>>
    ensures { option_map plainly result ≡ option_and_then (λ s. asked_given s.0 (λ id. first_of id s.1)) (subcommand_rows_of matches.now) }
{
    let (name, given) = matches.subcommand()?;
    asked_given(name, given)
}

// What the command of this name asks for, with the words that it was given.
fn asked_given<'a>(name: &str, given: &ArgMatches<'a>) -> Option<Asked<'a>>
    ensures { option_map plainly result ≡ asked_given name.now (first_value (found_of given.now)) }
{
    Some(match name {
        "run" => Asked::Run(given.get_str("SOURCE")?, given.get_str("SCHEDULE")?),
        "survive" => Asked::Survive(given.get_str("SOURCE")?, given.get_str("SCHEDULE")?),
        "plain" => Asked::Plain(given.get_str("SOURCE")?, given.get_str("RECORD")?),
        "check" => Asked::Check(given.get_str("SOURCE")?),
        "code" => Asked::Code(given.get_str("SOURCE")?),
        "trial" => Asked::Trial(trial_number(given.get_str("NUMBER")?.as_bytes())?),
        "compile" => Asked::Compile(given.get_str("SOURCE")?),
        "load" => Asked::Load(given.get_str("IMAGE")?, given.get_str("SCHEDULE")?),
        "session" => Asked::Session(
            given.get_str("SOURCE")?,
            given.get_str("SCHEDULE")?,
            given.get_str("SESSION")?,
        ),
        "domino" => Asked::Domino(given.get_str("HISTORY")?),
        "stuck" => Asked::Stuck(given.get_str("SOURCE")?, given.get_str("SCHEDULE")?),
        _ => return None,
    })
}
