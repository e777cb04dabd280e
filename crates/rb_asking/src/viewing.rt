//! What the words of `rblview` ask for. They are read with `clap`.
ghost use Rattle.std.specs.Prelude.{◌≡◌, IfOk, map, option_and_then, option_map, string_bytes};
ghost use Rattle.clap.specs.Words.{app_of, first_of, first_value, found_of, subcommand_rows_of};
ghost use Rattle.rb_asking.specs.ViewLine.{plainly, program, view_given};
ghost use Rattle.rb_asking.specs.Views.{Helps, commanded_by, explored_by, version_with, view_of};
ghost use Rattle.rb_words.specs.Given.{with_perhaps};

use crate::guides::plain_guides;
use crate::leading::{is_help, is_help_alone, is_version};
use crate::line::{none_unless_memory, program_alone, with_commands};
use crate::number::trial_number;
use crate::words::Words;
use clap::{ArgMatches, Command};
use rb_base::Memory;
use rb_words::are_plain;
use std::alloc::{AllocError, Global};

/// A command of `rblview` with the words that it was given.
#[derive(Clone, Copy)]
pub enum View<'a> {
    /// `explain`, or `explain NAME`.
    Explain(Option<&'a str>),
    /// `trace SOURCE SCHEDULE`.
    Trace(&'a str, &'a str),
    /// `page PAGE SOURCE SCHEDULE`.
    Page(&'a str, &'a str, &'a str),
    /// `explore SOURCE`, or `explore SOURCE NUMBER`.
    Explore(&'a str, Option<u64>),
    /// `faults SOURCE`.
    Faults(&'a str),
    /// `help`, or `help NAME`.
    Help(Option<&'a str>),
    /// `version`.
    Version,
}

/// What the words ask for, if they give a command. `Memory` may come for any words.
pub fn view_for(alloc: Global, words: &Words) -> Result<Option<View<'_>>, Memory>
    ensures { IfOk result (λ view. view_of words.now ≡ option_map plainly view) }
{
    match words.list() {
        [] => Ok(None),
        [first, rest @ ..] => {
            if is_help(first.as_str()) {
                Ok(help_with(rest))
            } else if is_help_alone(rest) {
                Ok(Some(View::Help(Some(first.as_str()))))
            } else if is_version(first.as_str()) {
                Ok(version_with(rest))
            } else {
                commanded_by(alloc, words.list())
            }
        }
    }
}

// What the words behind one for help ask for.
fn help_with(words: &[String]) -> Option<View<'_>>
    ensures { option_map plainly result ≡ with_perhaps Helps (map string_bytes words.now) }
{
    match words {
        [] => Some(View::Help(None)),
        [name] => Some(View::Help(Some(name.as_str()))),
        _ => None,
    }
}

// What the words behind one for the version ask for.
fn version_with(words: &[String]) -> Option<View<'_>>
    ensures { option_map plainly result ≡ version_with (map string_bytes words.now) }
{
    match words {
        [] => Some(View::Version),
        _ => None,
    }
}

// What words ask for that begin with the name of a command that takes plain words alone.
fn commanded_by(alloc: Global, words: &[String]) -> Result<Option<View<'_>>, Memory>
    ensures { IfOk result (λ view. commanded_by (map string_bytes words.now) ≡ option_map plainly view) }
{
    if !are_plain(words) {
        return Ok(None);
    }
    match command_line(alloc)?.try_get_matches_from(words) {
        Ok(matches) => Ok(view_in(&matches)),
        Err(error) => none_unless_memory(error.kind()),
    }
}

// The program with those commands.
fn command_line<'a>(alloc: Global) -> Result<Command<'a>, AllocError>
    ensures { IfOk result (λ line. app_of line ≡ program) }
{
    with_commands(alloc, program_alone(alloc, "rblview"), plain_guides())
}

// The command that was found, with its words.
fn view_in<'a>(matches: &ArgMatches<'a>) -> Option<View<'a>>
    ensures { option_map plainly result ≡ option_and_then (λ s. view_given s.0 (λ id. first_of id s.1)) (subcommand_rows_of matches.now) }
{
    let (name, given) = matches.subcommand()?;
    view_given(name, given)
}

// What the command of this name asks for, with the words that it was given.
fn view_given<'a>(name: &str, given: &ArgMatches<'a>) -> Option<View<'a>>
    ensures { option_map plainly result ≡ view_given name.now (first_value (found_of given.now)) }
{
    match name {
        "explain" => Some(View::Explain(given.get_str("NAME"))),
        "trace" => Some(View::Trace(given.get_str("SOURCE")?, given.get_str("SCHEDULE")?)),
        "page" => Some(View::Page(
            given.get_str("PAGE")?,
            given.get_str("SOURCE")?,
            given.get_str("SCHEDULE")?,
        )),
        "explore" => explored_by(given.get_str("SOURCE")?, given.get_str("NUMBER")),
        "faults" => Some(View::Faults(given.get_str("SOURCE")?)),
        _ => None,
    }
}

// All outcomes, or the one of a number.
fn explored_by<'a>(source: &'a str, number: Option<&str>) -> Option<View<'a>>
    ensures { option_map plainly result ≡ explored_by source.now (option_map (λ word. word.now) number.entry) }
{
    match number {
        None => Some(View::Explore(source, None)),
        Some(word) => Some(View::Explore(source, Some(trial_number(word.as_bytes())?))),
    }
}
