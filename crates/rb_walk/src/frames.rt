//! The frames of an environment, in memory: variables with their numbers, and calls with their frames.

ghost use Rattle.std.specs.Prelude.{◌≡◌, ◌++◌, map, [], ◌∷◌, IfOk, OnOk};
ghost use Rattle.rb_syntax.specs.Plain.{declaration, identifier};
ghost use Rattle.rb_meaning.specs.Environment.{size_of, zeros, frame_of, rest_of};
ghost use Rattle.rb_meaning.specs.Step.{bound_to};
ghost use Rattle.rb_walk.specs.Slots.{stored, frame, frames_of, calls_of, changed};

use crate::element::number_at;
use rb_base::Memory;
use rb_syntax::{Name, Var};
use std::alloc::Global;

/// A variable: its name, and its numbers; a scalar has one.
#[derive(Drop)]
pub struct Slot<'a> {
    pub name: &'a [u8],
    pub values: Vec<i64>,
}

/// A call under way, or the main body: its frames, the innermost last.
#[derive(Drop)]
pub struct Call<'a> {
    pub frames: Vec<Vec<Slot<'a>>>,
}

/// How many numbers a variable has.
pub fn size_of(variable: &Var<'_>) -> usize
    ensures { result ≡ size_of variable.now.size }
{
    match variable.size {
        None => 1,
        Some(number) => if number.value < 0 {
            0
        } else {
            number.value as usize
        },
    }
}

impl<'a> Slot<'a> {
    /// A declared variable, with zeros.
    pub fn new(alloc: Global, variable: &Var<'a>) -> Result<Self, Memory>
        ensures { IfOk result (λ slot. stored slot ≡ zeros (declaration variable.now)) }
    {
        let values = Vec::from_elem(alloc, 0, size_of(variable))?;
        Ok(Slot {
            name: variable.name.text,
            values,
        })
    }

    /// A parameter with its value.
    fn bound(alloc: Global, parameter: &Name<'a>, value: i64) -> Result<Self, Memory>
        ensures { IfOk result (λ slot. stored slot ≡ record { name = (identifier parameter.now).text; values = value ∷ [] }) }
    {
        let values = Vec::from_elem(alloc, value, 1)?;
        Ok(Slot {
            name: parameter.text,
            values,
        })
    }

    /// Replaces a number, if it is there.
    pub fn set(&mut self, index: usize, value: i64)
        ensures { stored self.new ≡ changed (stored self.old) index value }
    {
        if index < self.values.len() {
            self.values[index] = value;
        }
    }

    /// The same variable in memory of its own.
    pub fn copied(&self, alloc: Global) -> Result<Self, Memory>
        ensures { IfOk result (λ slot. stored slot ≡ stored self.now) }
    {
        let values = Vec::from_slice(alloc, self.values.as_slice())?;
        Ok(Slot {
            name: self.name,
            values,
        })
    }
}

impl<'a> Call<'a> {
    /// Puts a frame in as the innermost.
    pub fn push(&mut self, slots: Vec<Slot<'a>>) -> Result<(), Memory>
        ensures { OnOk result (frames_of self.new ≡ frame slots.entry.items ∷ frames_of self.old) }
    {
        self.frames.push(slots)?;
        Ok(())
    }

    /// Takes the innermost frame out, if there is one.
    pub fn pop(&mut self)
        ensures { frames_of self.new ≡ rest_of (frames_of self.old) }
    {
        self.frames.pop();
    }
}

/// Puts the variables of these declarations behind those of a frame, with zeros.
fn push_zeros<'a>(
    slots: &mut Vec<Slot<'a>>,
    alloc: Global,
    variables: &[Var<'a>],
) -> Result<(), Memory>
    ensures { OnOk result (frame slots.new.items ≡ frame slots.old.items ++ frame_of (map declaration variables.now)) }
{
    slots.reserve(variables.len())?;
    for variable in variables {
        slots.push_reserved(Slot::new(alloc, variable)?);
    }
    Ok(())
}

/// The frame of these declarations, with zeros.
pub fn frame<'a>(alloc: Global, variables: &[Var<'a>]) -> Result<Vec<Slot<'a>>, Memory>
    ensures { IfOk result (λ slots. frame slots.items ≡ frame_of (map declaration variables.now)) }
{
    let mut slots = Vec::new(alloc);
    push_zeros(&mut slots, alloc, variables)?;
    Ok(slots)
}

/// The parameters of a call with these values; one left over is 0.
fn bound<'a>(
    alloc: Global,
    parameters: &[Name<'a>],
    values: &[i64],
) -> Result<Vec<Slot<'a>>, Memory>
    ensures { IfOk result (λ slots. frame slots.items ≡ bound_to (map identifier parameters.now) values.now) }
{
    let mut slots = Vec::with_capacity(alloc, parameters.len())?;
    for (place, parameter) in parameters.iter().enumerate() {
        slots.push_reserved(Slot::bound(alloc, parameter, number_at(values, place))?);
    }
    Ok(slots)
}

/// The frame of a call: its parameters with these values, and then the variables of its block, with zeros.
pub fn call_frame<'a>(
    alloc: Global,
    parameters: &[Name<'a>],
    values: &[i64],
    variables: &[Var<'a>],
) -> Result<Vec<Slot<'a>>, Memory>
    ensures { IfOk result
        (λ slots. frame slots.items ≡ bound_to (map identifier parameters.now) values.now ++ frame_of (map declaration variables.now)) }
{
    let mut slots = bound(alloc, parameters, values)?;
    push_zeros(&mut slots, alloc, variables)?;
    Ok(slots)
}

/// A copy of a frame.
pub fn copied_frame<'a>(alloc: Global, slots: &[Slot<'a>]) -> Result<Vec<Slot<'a>>, Memory>
    ensures { IfOk result (λ copies. frame copies.items ≡ frame slots.now) }
{
    let mut copies = Vec::with_capacity(alloc, slots.len())?;
    for slot in slots {
        copies.push_reserved(slot.copied(alloc)?);
    }
    Ok(copies)
}

/// A copy of a call.
fn copied_call<'a>(alloc: Global, call: &Call<'a>) -> Result<Call<'a>, Memory>
    ensures { IfOk result (λ copy. frames_of copy ≡ frames_of call.now) }
{
    let mut frames = Vec::with_capacity(alloc, call.frames.len())?;
    for slots in &call.frames {
        frames.push_reserved(copied_frame(alloc, slots)?);
    }
    Ok(Call { frames })
}

/// A copy of all calls.
pub fn copied_calls<'a>(alloc: Global, calls: &[Call<'a>]) -> Result<Vec<Call<'a>>, Memory>
    ensures { IfOk result (λ copies. calls_of copies.items ≡ calls_of calls.now) }
{
    let mut copies = Vec::with_capacity(alloc, calls.len())?;
    for call in calls {
        copies.push_reserved(copied_call(alloc, call)?);
    }
    Ok(copies)
}
