//! The steps of statements that open no block.

ghost use Rattle.std.specs.Prelude.{◌≡◌, ◌+◌, ◌++◌, [], ◌∷◌, map, true, OnOk};
ghost use Rattle.rb_syntax.specs.Plain.{expression, print_item, printed as plain_printed, reference};
ghost use Rattle.rb_world.specs.World.{change_at};
ghost use Rattle.rb_meaning.specs.Step.{after_blank, assigned, line_from, place_in, present_value, printed, prints, sends, takes};
ghost use Rattle.rb_walk.specs.States.{state_of};
ghost use Rattle.rb_walk.specs.Comes.{AddsAs, AddsTo, Comes, Gives};

use crate::counter::Counters;
use crate::element::index_in;
use crate::environment::Environment;
use crate::halt::Halt;
use crate::state::State;
use crate::value::value_of;
use itoa::Buffer;
use rb_base::Memory;
use rb_syntax::{Expr, Item, ItemKind, Target};
use std::alloc::Global;

/// The value of an expression outside acceptance tests.
pub fn present(environment: &Environment<'_>, asked: &Expr<'_>) -> Result<i64, Halt>
    ensures { Gives (λ v. v) (present_value environment.now (expression asked.now)) result }
{
    // It is lent twice, each time for a life of its own.
    let now = &*environment;
    let before = &*environment;
    match value_of(now, before, &Counters::None, asked) {
        Ok(value) => Ok(value),
        Err(_) => Err(Halt::Stuck),
    }
}

/// The place of a value: which of its numbers, by the index where there is one.
fn place_in(environment: &Environment<'_>, target: &Target<'_>) -> Result<usize, Halt>
    ensures { Gives (λ n. (target.now.name.text.now, n)) (place_in environment.now (reference target.now)) result }
{
    match &target.index {
        None => Ok(0),
        Some(index) => {
            let index = present(environment, index)?;
            match index_in(environment.values(target.name.text), index) {
                Ok(place) => Ok(place),
                Err(_) => Err(Halt::Stuck),
            }
        }
    }
}

impl<'t, 'a> State<'t, 'a> {
    /// An assignment, which evaluates and checks its place first.
    pub fn assign(&mut self, to: &Target<'a>, value: &Expr<'a>) -> Result<(), Halt>
        ensures { Comes (assigned (state_of self.old) (reference to.now) (expression value.now)) (state_of self.new) result }
    {
        let place = place_in(&self.environment, to)?;
        let value = present(&self.environment, value)?;
        self.environment.set(to.name.text, place, value);
        Ok(())
    }

    /// A send, for which there is room.
    pub fn send(&mut self, channel: usize, value: &Expr<'a>) -> Result<(), Halt>
        ensures { Comes (sends (state_of self.old) channel (expression value.now)) (state_of self.new) result }
    {
        let value = present(&self.environment, value)?;
        add_sent(&mut self.sent, channel, value)?;
        Ok(())
    }

    /// A receipt of this message. A number taken that a word can't hold is want of memory.
    pub fn take(&mut self, channel: usize, to: &Target<'a>, message: i64) -> Result<(), Halt>
        ensures { Comes (takes (state_of self.old) channel (reference to.now) message) (state_of self.new) result }
    {
        let place = place_in(&self.environment, to)?;
        self.environment.set(to.name.text, place, message);
        add_taken(&mut self.taken, channel)?;
        Ok(())
    }

    /// A `print`: its line is held.
    pub fn print(&mut self, alloc: Global, items: &[Item<'a>]) -> Result<(), Halt>
        ensures { Comes (prints (state_of self.old) (map print_item items.now)) (state_of self.new) result }
    {
        let line = line_of(alloc, &self.environment, items)?;
        self.held.add(line)
    }
}

// A value joins those that were sent on a channel.
#[tactic(auto, using(crate::proofs::Changes::changes))]
fn add_sent(sent: &mut [Vec<i64>], channel: usize, value: i64) -> Result<(), Memory>
    ensures { OnOk result
        (map (λ values. values.items) sent.new ≡ change_at channel (λ values. values ++ value ∷ []) (map (λ values. values.items) sent.old)) }
{
    if channel < sent.len() {
        sent[channel].push(value)?;
    }
    Ok(())
}

// One value more was taken from a channel.
#[tactic(auto, using(crate::proofs::Changes::changes))]
fn add_taken(taken: &mut [usize], channel: usize) -> Result<(), Memory>
    ensures { OnOk result (taken.new ≡ change_at channel (λ n. n + 1) taken.old) }
{
    if channel < taken.len() {
        taken[channel] = taken[channel].checked_add(1).ok_or(Memory)?;
    }
    Ok(())
}

// The line of these items, evaluated from left to right.
fn line_of(
    alloc: Global,
    environment: &Environment<'_>,
    items: &[Item<'_>],
) -> Result<Vec<u8>, Halt>
    ensures { Gives (λ line. line.items) (line_from environment.now true (map print_item items.now)) result }
{
    let mut line = Vec::new(alloc);
    let mut first = true;
    for item in items {
        put_blank(&mut line, first)?;
        put_item(&mut line, environment, &item.what)?;
        first = false;
    }
    Ok(line)
}

fn put_blank(line: &mut Vec<u8>, first: bool) -> Result<(), Halt>
    ensures { AddsTo line.old.items (after_blank [] first) line.new.items result }
{
    if first {
        return Ok(());
    }
    line.push(b' ')?;
    Ok(())
}

// An item's bytes: its text, or its value in decimal.
fn put_item(
    line: &mut Vec<u8>,
    environment: &Environment<'_>,
    item: &ItemKind<'_>,
) -> Result<(), Halt>
    ensures { AddsAs line.old.items (printed environment.now (plain_printed item.now)) line.new.items result }
{
    match item {
        ItemKind::Text(text) => put(line, text),
        ItemKind::Value(expression) => {
            let value = present(environment, expression)?;
            let mut buffer = Buffer::new();
            put(line, buffer.format(value).as_bytes())
        }
    }
}

fn put(line: &mut Vec<u8>, bytes: &[u8]) -> Result<(), Halt>
    ensures { AddsTo line.old.items bytes.now line.new.items result }
{
    line.extend_from_slice(bytes)?;
    Ok(())
}
