//! The names of an accepted program that its printed lines and its schedules speak of.

ghost use Rattle.std.specs.Prelude.{◌≡◌, map, option_map, Some, IfOk};
ghost use Rattle.rb_syntax.specs.Plain.{channel_declaration, conversation_declaration, declaration, process_declaration, tree};
ghost use Rattle.rb_meaning.specs.Environment.{size_of};
ghost use Rattle.rb_meaning.specs.Meaning.{naming_of, process_named, variables_named};
ghost use Rattle.rb_trace.specs.Naming.{naming, process_naming, variable_naming};

use crate::rules::{count, sum};
use rb_base::names::{ProcessNames, Variable};
use rb_base::{Memory, Names, Text};
use rb_scope::Checked;
use rb_syntax::{Channel, Conversation, Number, Process, Var};
use std::alloc::Global;

/// The names that a program's printed lines and its schedules speak of: of each process with its variables, their first
/// words and sizes, of each channel and of each conversation, in the order of declaration.
pub fn names(alloc: Global, checked: &Checked<'_>) -> Result<Names, Memory>
    ensures { IfOk result (λ names. naming names ≡ naming_of (tree checked.now.program)) }
{
    // No list is longer than numbers of 32 bits can tell.
    count(checked.program.processes.len())?;
    count(checked.program.channels.len())?;
    count(checked.program.conversations.len())?;
    let processes = named_processes(alloc, &checked.program.processes)?;
    let channels = channel_names(alloc, &checked.program.channels)?;
    let conversations = conversation_names(alloc, &checked.program.conversations)?;
    Ok(Names {
        processes,
        channels,
        conversations,
    })
}

fn named_processes(alloc: Global, processes: &[Process<'_>]) -> Result<Vec<ProcessNames>, Memory>
    ensures { IfOk result (λ named. map process_naming named.items ≡ map process_named (map process_declaration processes.now)) }
{
    let mut named = Vec::with_capacity(alloc, processes.len())?;
    let mut rest = processes;
    'processes: while let [process, after @ ..] = rest {
        named.push_reserved(named_process(alloc, process)?);
        rest = after;
    }
    Ok(named)
}

fn named_process(alloc: Global, process: &Process<'_>) -> Result<ProcessNames, Memory>
    ensures { IfOk result (λ named. process_naming named ≡ process_named (process_declaration process.now)) }
{
    let name = Text::from_slice(alloc, process.name.text)?;
    let variables = named_variables(alloc, &process.vars)?;
    Ok(ProcessNames { name, variables })
}

fn named_variables(alloc: Global, variables: &[Var<'_>]) -> Result<Vec<Variable>, Memory>
    ensures { IfOk result (λ named. map variable_naming named.items ≡ variables_named 0 (map declaration variables.now)) }
{
    let mut named = Vec::with_capacity(alloc, variables.len())?;
    let mut at = 0;
    let mut rest = variables;
    'variables: while let [variable, after @ ..] = rest {
        named.push_reserved(named_variable(alloc, at, variable)?);
        at = sum(at, size_of(variable.size)?)?;
        rest = after;
    }
    Ok(named)
}

fn named_variable(alloc: Global, at: u32, variable: &Var<'_>) -> Result<Variable, Memory>
    ensures { IfOk result
        (λ named. variable_naming named
        ≡ record { name = variable.now.name.text.now; at = at; size = option_map (λ n. size_of (Some n)) variable.now.size }) }
{
    let name = Text::from_slice(alloc, variable.name.text)?;
    let size = array_size(variable.size)?;
    Ok(Variable { name, at, size })
}

/// How many words a variable of this size has, as far as 32 bits can count.
fn size_of(size: Option<Number>) -> Result<u32, Memory>
    ensures { IfOk result (λ words. words ≡ size_of size) }
{
    match size {
        None => Ok(1),
        Some(number) if number.value < 0 => Ok(0),
        Some(number) => u32::try_from(number.value).ok().ok_or(Memory),
    }
}

fn array_size(size: Option<Number>) -> Result<Option<u32>, Memory>
    ensures { IfOk result (λ words. words ≡ option_map (λ n. size_of (Some n)) size) }
{
    match size {
        None => Ok(None),
        Some(_) => Ok(Some(size_of(size)?)),
    }
}

fn channel_names(alloc: Global, channels: &[Channel<'_>]) -> Result<Vec<Text>, Memory>
    ensures { IfOk result (λ names. names.items ≡ map (λ c. c.name.text) (map channel_declaration channels.now)) }
{
    let mut names = Vec::with_capacity(alloc, channels.len())?;
    let mut rest = channels;
    'channels: while let [channel, after @ ..] = rest {
        names.push_reserved(Text::from_slice(alloc, channel.name.text)?);
        rest = after;
    }
    Ok(names)
}

fn conversation_names(
    alloc: Global,
    conversations: &[Conversation<'_>],
) -> Result<Vec<Text>, Memory>
    ensures { IfOk result (λ names. names.items ≡ map (λ c. c.name.text) (map conversation_declaration conversations.now)) }
{
    let mut names = Vec::with_capacity(alloc, conversations.len())?;
    let mut rest = conversations;
    'conversations: while let [conversation, after @ ..] = rest {
        names.push_reserved(Text::from_slice(alloc, conversation.name.text)?);
        rest = after;
    }
    Ok(names)
}
