//! The command line of a program with commands, as `clap` is told of it.
ghost use Rattle.std.specs.Prelude.{◌≡◌, IfOk, OnErr, None, map};
ghost use Rattle.clap.specs.Words.{app_of, with_subcommand};
ghost use Rattle.std.specs.List.{fold};
ghost use Rattle.rb_asking.specs.Guides.{guide_of};
ghost use Rattle.rb_asking.specs.Program.{program_alone, shape_of};

use crate::guides::Guide;
use clap::Command;
use clap::error::ErrorKind;
use rb_base::Memory;
use rb_words::{command_and_last, command_with};
use std::alloc::{AllocError, Global};

/// The program of this name, of which one command has to be named; `help` is none.
pub fn program_alone<'a>(alloc: Global, name: &'a str) -> Command<'a>
    ensures { app_of result ≡ program_alone name.entry.now }
{
    Command::new(alloc, name)
        .no_binary_name(true)
        .disable_help_flag(true)
        .disable_help_subcommand(true)
        .subcommand_required(true)
}

/// The program with these commands more, in their order.
pub fn with_commands<'a>(
    alloc: Global,
    program: Command<'a>,
    guides: &'static [Guide],
) -> Result<Command<'a>, AllocError>
    ensures { IfOk result (λ more. app_of more ≡ fold with_subcommand (app_of program.entry) (map shape_of (map guide_of guides.now))) }
{
    let mut program = program;
    for guide in guides {
        program = and_command(alloc, program, *guide)?;
    }
    Ok(program)
}

// The program with one. A call of its own, as the program is let go where memory is wanting.
fn and_command<'a>(
    alloc: Global,
    program: Command<'a>,
    guide: Guide,
) -> Result<Command<'a>, AllocError>
    ensures { IfOk result (λ more. app_of more ≡ with_subcommand (app_of program.entry) (shape_of (guide_of guide))) }
{
    match guide.last {
        None => program.subcommand(command_with(alloc, guide.name, guide.takes)?),
        Some(last) => {
            program.subcommand(command_and_last(alloc, guide.name, guide.takes, last)?)
        }
    }
}

/// Words that are refused for this give no command, unless memory was wanting.
pub fn none_unless_memory<T>(kind: ErrorKind) -> Result<Option<T>, Memory>
    ensures none { IfOk result (λ given. (given ≡ None) × (kind ≡ ErrorKind.OutOfMemory → ⊥)) }
    ensures memory { OnErr result (kind ≡ ErrorKind.OutOfMemory) }
{
    if kind == ErrorKind::OutOfMemory {
        return Err(Memory);
    }
    Ok(None)
}
