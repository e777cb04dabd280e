//! The rows of declarations that scopes have.

ghost use Rattle.std.specs.Prelude.{◌≡◌, ◌++◌, ◌≤◌, length, map, OnOk};
ghost use Rattle.std.specs.List.{position_or_len};
ghost use Rattle.rb_syntax.specs.Plain.{declaration, identifier, channel_declaration, conversation_declaration, procedure_declaration, process_declaration};
ghost use Rattle.rb_scope.specs.FirstFault.{is_before};
ghost use Rattle.rb_scope.specs.Scopes.{variables_from, parameters_from, procedures_from, channels_from, conversations_from, processes_from, take_place, in_text_order};
ghost use Rattle.rb_scope.specs.Memory.{held, all_held};
ghost use Rattle.rb_faults.specs.Memory.{slot_in};

use crate::rules::{elements, sum, words_of};
use rb_base::{Memory, Place};
use rb_scope::first::is_before;
use rb_scope::{Declared, Slot};
use rb_syntax::{Channel, Conversation, Name, Procedure, Process, Var};

/// Whose words the variables of a scope take: those of the process, or those of the running call.
#[derive(Clone, Copy)]
pub(crate) enum Kind {
    OfProcess,
    OfCall,
}

impl Kind {
    fn slot(self, at: u32, size: Option<u32>) -> Slot
        ensures { result ≡ slot_in self at size }
    {
        match self {
            Kind::OfProcess => Slot::Global { at, size },
            Kind::OfCall => Slot::Local { at, size },
        }
    }
}

/// Adds variables, the first of which begins at this word.
pub(crate) fn add_variables<'a>(
    declared: &mut Vec<Declared<'a>>,
    kind: Kind,
    first: u32,
    variables: &[Var<'a>],
) -> Result<(), Memory>
    ensures { OnOk result
        (all_held declared.new.items ≡ all_held declared.old.items ++ variables_from (slot_in kind) first (map declaration variables.now)) }
{
    let mut at = first;
    let mut rest = variables;
    'variables: while let [variable, after @ ..] = rest {
        declared.push(Declared {
            name: variable.name,
            slot: kind.slot(at, elements(variable.size)),
            parameters: 0,
        })?;
        at = sum(at, words_of(variable.size))?;
        rest = after;
    }
    Ok(())
}

/// Adds parameters, the first of which is the first word of the call.
pub(crate) fn add_parameters<'a>(
    declared: &mut Vec<Declared<'a>>,
    parameters: &[Name<'a>],
) -> Result<(), Memory>
    ensures { OnOk result (all_held declared.new.items ≡ all_held declared.old.items ++ parameters_from 0 (map identifier parameters.now)) }
{
    let mut at = 0;
    let mut rest = parameters;
    'parameters: while let [name, after @ ..] = rest {
        declared.push(Declared {
            name: *name,
            slot: Slot::Local { at, size: None },
            parameters: 0,
        })?;
        at = sum(at, 1)?;
        rest = after;
    }
    Ok(())
}

/// Adds the procedures of a process.
pub(crate) fn add_procedures<'a>(
    declared: &mut Vec<Declared<'a>>,
    procedures: &[Procedure<'a>],
) -> Result<(), Memory>
    ensures { OnOk result
        (all_held declared.new.items ≡ all_held declared.old.items ++ procedures_from 0 (map procedure_declaration procedures.now)) }
{
    let mut number = 0;
    let mut rest = procedures;
    'procedures: while let [procedure, after @ ..] = rest {
        declared.push(Declared {
            name: procedure.name,
            slot: Slot::Procedure(number),
            parameters: procedure.params.len(),
        })?;
        number = sum(number, 1)?;
        rest = after;
    }
    Ok(())
}

/// Adds the channels of a program.
pub(crate) fn add_channels<'a>(
    declared: &mut Vec<Declared<'a>>,
    channels: &[Channel<'a>],
) -> Result<(), Memory>
    ensures { OnOk result (all_held declared.new.items ≡ all_held declared.old.items ++ channels_from 0 (map channel_declaration channels.now)) }
{
    let mut number = 0;
    let mut rest = channels;
    'channels: while let [channel, after @ ..] = rest {
        declared.push(Declared {
            name: channel.name,
            slot: Slot::Channel(number),
            parameters: 0,
        })?;
        number = sum(number, 1)?;
        rest = after;
    }
    Ok(())
}

/// Adds the processes of a program.
pub(crate) fn add_processes<'a>(
    declared: &mut Vec<Declared<'a>>,
    processes: &[Process<'a>],
) -> Result<(), Memory>
    ensures { OnOk result (all_held declared.new.items ≡ all_held declared.old.items ++ processes_from 0 (map process_declaration processes.now)) }
{
    let mut number = 0;
    let mut rest = processes;
    'processes: while let [process, after @ ..] = rest {
        declared.push(Declared {
            name: process.name,
            slot: Slot::Process(number),
            parameters: 0,
        })?;
        number = sum(number, 1)?;
        rest = after;
    }
    Ok(())
}

/// Puts the conversations of a program where they stand among other declarations.
pub(crate) fn place_conversations<'a>(
    declared: &mut Vec<Declared<'a>>,
    conversations: &[Conversation<'a>],
) -> Result<(), Memory>
    ensures { OnOk result
        (all_held declared.new.items
        ≡ in_text_order (conversations_from 0 (map conversation_declaration conversations.now)) (all_held declared.old.items)) }
{
    let mut number = 0;
    let mut rest = conversations;
    'conversations: while let [conversation, after @ ..] = rest {
        place(
            declared,
            Declared {
                name: conversation.name,
                slot: Slot::Conversation(number),
                parameters: 0,
            },
        )?;
        number = sum(number, 1)?;
        rest = after;
    }
    Ok(())
}

/// Puts a declaration where it stands among others.
fn place<'a>(declared: &mut Vec<Declared<'a>>, one: Declared<'a>) -> Result<(), Memory>
    ensures { OnOk result (all_held declared.new.items ≡ take_place (held one.entry) (all_held declared.old.items)) }
{
    let index = place_for(declared, one.name.place);
    declared.insert(index, one)?;
    Ok(())
}

fn place_for(declared: &[Declared<'_>], place: Place) -> usize
    ensures within { result ≤ length declared.now }
    ensures first { result ≡ position_or_len (λ other. is_before place other.name.place) declared.now }
{
    let mut index = 0;
    let mut rest = declared;
    'declared: while let [other, after @ ..] = rest {
        if is_before(place, other.name.place) {
            return index;
        }
        index += 1;
        rest = after;
    }
    index
}
