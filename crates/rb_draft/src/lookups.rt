//! What a name stands for, by its slot. A slot of another kind gives a default.

ghost use Rattle.std.specs.Prelude.{◌≡◌, option_map};
ghost use Rattle.rb_syntax.specs.Plain.{identifier};
ghost use Rattle.rb_code.specs.Agreement.Slots.{channel_of, counter_of, elements_of, procedure_of, quantified_of, spot_of};
ghost use Rattle.rb_draft.specs.Lookups.{joined_of, process_of};

use rb_code::Spot;
use rb_scope::Slot;
use rb_syntax::Name;

/// The first word of a variable.
pub fn spot_of(slots: &[Slot], id: u32) -> Spot
    ensures { result ≡ spot_of slots.now id }
{
    match slots.get(id as usize) {
        Some(Slot::Global { at, .. }) => Spot::Global(*at),
        Some(Slot::Local { at, .. }) => Spot::Local(*at),
        _ => Spot::Global(0),
    }
}

/// How many elements an array has.
pub fn elements_of(slots: &[Slot], id: u32) -> u32
    ensures { result ≡ elements_of slots.now id }
{
    match slots.get(id as usize) {
        Some(Slot::Global { size, .. } | Slot::Local { size, .. }) => match size {
            None => 0,
            Some(elements) => *elements,
        },
        _ => 0,
    }
}

/// The counter that a name stands for, if it is that of a quantified expression.
pub fn counter_of(slots: &[Slot], id: u32) -> Option<u32>
    ensures { result ≡ counter_of slots.now id }
{
    match slots.get(id as usize) {
        Some(Slot::Counter(counter)) => Some(*counter),
        _ => None,
    }
}

/// The counter of a quantified expression, by its name.
pub fn quantified_of(slots: &[Slot], id: u32) -> u32
    ensures { result ≡ quantified_of slots.now id }
{
    counter_of(slots, id).unwrap_or(0)
}

/// The number of a channel.
pub fn channel_of(slots: &[Slot], id: u32) -> u32
    ensures { result ≡ channel_of slots.now id }
{
    match slots.get(id as usize) {
        Some(Slot::Channel(number)) => *number,
        _ => 0,
    }
}

/// The number of a procedure in its process.
pub fn procedure_of(slots: &[Slot], id: u32) -> u32
    ensures { result ≡ procedure_of slots.now id }
{
    match slots.get(id as usize) {
        Some(Slot::Procedure(number)) => *number,
        _ => 0,
    }
}

/// The number of a process.
pub fn process_of(slots: &[Slot], id: u32) -> u32
    ensures { result ≡ process_of slots.now id }
{
    match slots.get(id as usize) {
        Some(Slot::Process(number)) => *number,
        _ => 0,
    }
}

/// The number of the conversation that a recovery block is a part of, if it has one.
pub fn joined_of(slots: &[Slot], name: Option<Name<'_>>) -> Option<u32>
    ensures { result ≡ joined_of slots.now (option_map identifier name.entry) }
{
    match name {
        None => None,
        Some(name) => match slots.get(name.id as usize) {
            Some(Slot::Conversation(number)) => Some(*number),
            _ => Some(0),
        },
    }
}
