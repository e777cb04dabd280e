//! The variables of a process with their numbers, by name, in the frames of its open calls.

ghost use Rattle.std.specs.Prelude.{◌≡◌, ◌-◌, ◌++◌, map, reverse, slice_get, position, nat_le, nat_lt, cond, pos, [], ◌∷◌, IfOk, OnOk, Some, None, option_map};
ghost use Rattle.std.specs.List.{flat_map, list_any};
ghost use Rattle.std.specs.Option.{unwrap_or};
ghost use Rattle.rb_syntax.specs.Plain.{declaration, identifier};
ghost use Rattle.rb_meaning.specs.Environment.{same_name, frame_of, has, found_in, found_among, running_frames, in_running, stored_in, stored_among, values_of, store, words, global_words, push_frame, pop_frame, push_call, pop_call};
ghost use Rattle.rb_meaning.specs.Step.{bound_to, open_calls};
ghost use Rattle.rb_walk.specs.Slots.{frame, calls_of};

use crate::frames::{Call, Slot, call_frame, copied_calls, copied_frame, frame};
use crate::room::{room_of_call, room_of_calls, room_of_declared, room_of_frame};
use rb_base::Memory;
use rb_syntax::{Name, Var};
use std::alloc::Global;
use std::marker::Model;

/// The variables of a process: those that it declares, and the frames of its calls, the running call last.
#[derive(Drop)]
pub struct Environment<'a> {
    globals: Vec<Slot<'a>>,
    calls: Vec<Call<'a>>,
}

impl<'a> Model for Environment<'a> {
    ghost use Rattle.rb_meaning.specs.Environment.{Environment as Variables};

    ghost Value = { Variables };

    ghost use Rattle.rb_walk.specs.Slots.{frame, calls_of};

    ghost view = { λ e. record { globals = frame e.globals.items; calls = calls_of e.calls.items } };
}

impl<'a> Environment<'a> {
    /// The variables that a process declares, with zeros, in its main body.
    pub fn new(alloc: Global, variables: &[Var<'a>]) -> Result<Self, Memory>
        ensures { IfOk result (λ environment. environment ≡ record { globals = frame_of (map declaration variables.now); calls = [] ∷ [] }) }
    {
        let globals = frame(alloc, variables)?;
        let mut calls = Vec::new(alloc);
        calls.push(Call {
            frames: Vec::new(alloc),
        })?;
        Ok(Environment { globals, calls })
    }

    /// The numbers under a name; none under an unknown one.
    pub fn values(&self, name: &[u8]) -> &[i64]
        ensures { result.now ≡ values_of self.now name.now }
    {
        let frames = running(&self.calls);
        match find_among(frames, name) {
            Some(values) => values,
            None => find(&self.globals, name).unwrap_or(&[]),
        }
    }

    /// Replaces a number of the variable with this name, if it is there.
    pub fn set(&mut self, name: &[u8], index: usize, value: i64)
        ensures { self.new ≡ store self.old name.now index value }
    {
        if !set_running(&mut self.calls, name, index, value) {
            set(&mut self.globals, name, index, value);
        }
    }

    /// A block begins: its variables, with zeros, are the innermost frame of the running call.
    pub fn push_frame(&mut self, alloc: Global, variables: &[Var<'a>]) -> Result<(), Memory>
        ensures { OnOk result (self.new ≡ push_frame (frame_of (map declaration variables.now)) self.old) }
    {
        let Some(call) = self.calls.last_mut() else {
            return Ok(())
        };
        call.push(frame(alloc, variables)?)
    }

    /// A block ends, and its frame goes.
    pub fn pop_frame(&mut self)
        ensures { self.new ≡ pop_frame self.old }
    {
        let Some(call) = self.calls.last_mut() else {
            return
        };
        call.pop();
    }

    /// A call begins: its parameters with these values, and the variables of its block with zeros. A parameter left over is 0.
    pub fn push_call(
        &mut self,
        alloc: Global,
        parameters: &[Name<'a>],
        values: &[i64],
        variables: &[Var<'a>],
    ) -> Result<(), Memory>
        ensures { OnOk result
            (self.new ≡ push_call (bound_to (map identifier parameters.now) values.now ++ frame_of (map declaration variables.now)) self.old) }
    {
        let slots = call_frame(alloc, parameters, values, variables)?;
        let mut frames = Vec::new(alloc);
        frames.push(slots)?;
        self.calls.push(Call { frames })?;
        Ok(())
    }

    /// The running call ends, and the one that called it goes on.
    pub fn pop_call(&mut self)
        ensures { self.new ≡ pop_call self.old }
    {
        self.calls.pop();
    }

    /// How many calls are open, without the main body.
    pub fn open_calls(&self) -> usize
        ensures { result ≡ open_calls self.now }
    {
        self.calls.len().saturating_sub(1)
    }

    /// How many more words there may be, where there may be so many in all; none where there are more already.
    pub fn room(&self, most: usize) -> Option<usize>
        ensures { result ≡ cond (nat_le (words self.now) most) (Some (most - words self.now)) None }
    {
        room_of_calls(&self.calls, room_of_frame(&self.globals, most)?)
    }

    /// Whether a block of these variables would bring the words above so many.
    pub fn overflows(&self, variables: &[Var<'a>], most: usize) -> bool
        ensures { result ≡ nat_lt most (words (push_frame (frame_of (map declaration variables.now)) self.now)) }
    {
        match self.room(most) {
            None => true,
            Some(left) => !self.calls.is_empty() && room_of_declared(variables, left).is_none(),
        }
    }

    /// Whether a call with so many parameters and these variables would bring the words above so many.
    #[tactic(auto, using(crate::proofs::Words::call_words))]
    pub fn call_overflows(
        &self,
        parameters: &[Name<'a>],
        values: &[i64],
        variables: &[Var<'a>],
        most: usize,
    ) -> bool
        ensures { result
            ≡ nat_lt most
            (words (push_call (bound_to (map identifier parameters.now) values.now ++ frame_of (map declaration variables.now)) self.now)) }
    {
        match self.room(most) {
            None => true,
            Some(left) => room_of_call(parameters, variables, left).is_none(),
        }
    }

    /// A copy of all variables.
    pub fn copied(&self, alloc: Global) -> Result<Self, Memory>
        ensures { IfOk result (λ copy. copy ≡ self.now) }
    {
        let globals = copied_frame(alloc, &self.globals)?;
        let calls = copied_calls(alloc, &self.calls)?;
        Ok(Environment { globals, calls })
    }

    /// Word number `at` of the process's own variables, in order; 0 beyond them.
    pub fn word(&self, at: usize) -> i64
        ensures { result ≡ unwrap_or (slice_get (global_words self.now) at) (pos 0) }
    {
        word_of(&self.globals, at)
    }
}

/// The frames of the running call, the innermost last.
fn running<'s, 'a>(calls: &'s [Call<'a>]) -> &'s [Vec<Slot<'a>>]
    ensures { reverse (map (λ slots. frame slots.items) result.now) ≡ running_frames (calls_of calls.now) }
{
    let [.., call] = calls else { return &[] };
    call.frames.as_slice()
}

/// The numbers under this name in the innermost frame that has it, if one does.
fn find_among<'s>(mut frames: &'s [Vec<Slot<'_>>], name: &[u8]) -> Option<&'s [i64]>
    ensures { option_map (λ values. values.now) result ≡ found_among name.now (reverse (map (λ slots. frame slots.items) frames.entry.now)) }
{
    while let [outer @ .., slots] = frames {
        if let Some(values) = find(slots, name) {
            return Some(values);
        }
        frames = outer;
    }
    None
}

/// The numbers under this name: those of the first variable that has it.
fn find<'s>(mut slots: &'s [Slot<'_>], name: &[u8]) -> Option<&'s [i64]>
    ensures { option_map (λ values. values.now) result ≡ found_in name.now (frame slots.entry.now) }
{
    while let [slot, rest @ ..] = slots {
        if slot.name == name {
            return Some(slot.values.as_slice());
        }
        slots = rest;
    }
    None
}

/// The place of the first variable with this name.
fn place_of(slots: &[Slot<'_>], name: &[u8]) -> Option<usize>
    ensures { result ≡ position (λ slot. same_name slot.name.now name.now) slots.now }
{
    for (place, slot) in slots.iter().enumerate() {
        if slot.name == name {
            return Some(place);
        }
    }
    None
}

/// Replaces a number of the first variable with this name, if it is there, and tells whether it is.
fn set(slots: &mut [Slot<'_>], name: &[u8], index: usize, value: i64) -> bool
    ensures found { result ≡ has name.now (frame slots.old) }
    ensures after { frame slots.new ≡ stored_in name.now index value (frame slots.old) }
{
    match place_of(slots, name) {
        Some(place) => {
            slots[place].set(index, value);
            true
        }
        None => false,
    }
}

/// Replaces a number in the innermost frame of the running call that has the variable, and tells whether one has it.
fn set_running(calls: &mut Vec<Call<'_>>, name: &[u8], index: usize, value: i64) -> bool
    ensures found { result ≡ list_any (has name.now) (running_frames (calls_of calls.old.items)) }
    ensures after { calls_of calls.new.items
        ≡ cond result (in_running (stored_among name.now index value) (calls_of calls.old.items)) (calls_of calls.old.items) }
{
    match calls.last_mut() {
        Some(call) => set_among(&mut call.frames, name, index, value),
        None => false,
    }
}

/// The same among these frames, the innermost last.
fn set_among(frames: &mut [Vec<Slot<'_>>], name: &[u8], index: usize, value: i64) -> bool
    ensures found { result ≡ list_any (has name.now) (reverse (map (λ slots. frame slots.items) frames.old)) }
    ensures after { reverse (map (λ slots. frame slots.items) frames.new)
        ≡ stored_among name.now index value (reverse (map (λ slots. frame slots.items) frames.old)) }
{
    let mut left = frames.len();
    while left > 0 {
        left -= 1;
        if set(&mut frames[left], name, index, value) {
            return true;
        }
    }
    false
}

/// Word number `at` of a frame; 0 beyond it.
fn word_of(slots: &[Slot<'_>], at: usize) -> i64
    ensures { result ≡ unwrap_or (slice_get (flat_map (λ stored. stored.values) (frame slots.now)) at) (pos 0) }
{
    let mut left = at;
    for slot in slots {
        if let Some(value) = slot.values.get(left) {
            return *value;
        }
        left -= slot.values.len();
    }
    0
}
