//! What an analysis begins with: the states of each process, the messages that it sends, and where each message is taken.

ghost use Rattle.std.specs.Prelude.{◌≡◌, ℕ, ◌+◌, ◌*◌, ◌<◌, ◌≤◌, ◌^◌, ◌∷◌, [], length, vec_len, replicate, IfOk, OnOk};
ghost use Rattle.rb_domino.specs.Board.{AreSends, AreTakes, IsOrderly, PointsKnown, TakeKnown, Topped, list_at, noted, noted_take, stack, stacks, with_point};
ghost use Rattle.rb_domino.specs.History.{IsWhole};
ghost use Rattle.rb_domino.specs.Recovery.{all_states};

use crate::analysis::NOW;
use crate::history::History;
use crate::line::Line;
use crate::state::State;
use rb_base::{Memory, Steps};
use std::alloc::Global;
use std::sync::ledger::Ledger;

/// The states of each process, the latest at the end.
pub(crate) fn all_states<L: Ledger>(
    alloc: Global,
    history: &History,
    steps: &mut Steps<L>,
) -> Result<Vec<Vec<State>>, Memory>
    requires { IsOrderly history.now }
    ensures states { IfOk result (λ states. stacks states.items ≡ all_states history.now) }
    ensures work { steps.new ≤ steps.old + length history.now.lines + 2 * length history.now.processes }
{
    let mut states = empty_lists(alloc, history.processes().len(), steps)?;
    let mut at = 0;
    let mut rest = history.lines();
    while let [line, after @ ..] = rest {
        steps.tick();
        note_line(&mut states, *line, at)?;
        at += 1;
        rest = after;
    }
    add_now(&mut states, at, steps)?;
    Ok(states)
}

// A line adds a state to those of its process, if it is a recovery point.
fn note_line(states: &mut Vec<Vec<State>>, line: Line, at: u32) -> Result<(), Memory>
    requires known { PointsKnown (vec_len states.old) line }
    requires short { (p : ℕ) → length (list_at (stacks states.old.items) p) < 2 ^ 32 }
    ensures { OnOk result (stacks states.new.items ≡ noted at line (stacks states.old.items)) }
{
    match line {
        Line::Begin(p) => add_to(states, p, at),
        Line::Point(p) => add_to(states, p, at),
        _ => Ok(()),
    }
}

// A process comes to a recovery point.
fn add_to(states: &mut Vec<Vec<State>>, process: u32, at: u32) -> Result<(), Memory>
    requires known { process < vec_len states.old }
    requires short { length (list_at (stacks states.old.items) process) < 2 ^ 32 }
    ensures { OnOk result (stacks states.new.items ≡ with_point at process (stacks states.old.items)) }
{
    add_point(&mut states[process as usize], at)
}

fn add_point(states: &mut Vec<State>, place: u32) -> Result<(), Memory>
    requires { length (stack states.old.items) < 2 ^ 32 }
    ensures { OnOk result (stack states.new.items ≡ record { number = length (stack states.old.items); place = place } ∷ stack states.old.items) }
{
    let number = states.len() as u32;
    states.push(State { number, place })?;
    Ok(())
}

// Each process stands at `now` at the end.
fn add_now<L: Ledger>(
    states: &mut Vec<Vec<State>>,
    end: u32,
    steps: &mut Steps<L>,
) -> Result<(), Memory>
    ensures topped { OnOk result (Topped end (vec_len states.old) (stacks states.old.items) (stacks states.new.items)) }
    ensures work { steps.new ≤ steps.old + vec_len states.old }
{
    for p in 0..states.len() {
        states[p].push(State {
            number: NOW,
            place: end,
        })?;
        steps.tick();
    }
    Ok(())
}

/// The messages that each process sends, the last at the end.
pub(crate) fn all_sends<L: Ledger>(
    alloc: Global,
    history: &History,
    steps: &mut Steps<L>,
) -> Result<Vec<Vec<u32>>, Memory>
    requires orderly { IsOrderly history.now }
    requires whole { IsWhole history.now }
    ensures sends { IfOk result (λ sends. AreSends history.now (length history.now.messages) (stacks sends.items)) }
    ensures work { steps.new ≤ steps.old + length history.now.processes + length history.now.messages }
{
    let mut sends = empty_lists(alloc, history.processes().len(), steps)?;
    let mut m = 0;
    let mut rest = history.messages();
    while let [message, after @ ..] = rest {
        steps.tick();
        sends[message.sender as usize].push(m)?;
        m += 1;
        rest = after;
    }
    Ok(sends)
}

/// For each message the place where it is taken, if it is.
pub(crate) fn all_takes<L: Ledger>(
    alloc: Global,
    history: &History,
    steps: &mut Steps<L>,
) -> Result<Vec<Option<u32>>, Memory>
    requires orderly { IsOrderly history.now }
    requires whole { IsWhole history.now }
    ensures takes { IfOk result (λ takes. AreTakes history.now takes.items) }
    ensures all { IfOk result (λ takes. vec_len takes ≡ length history.now.messages) }
    ensures work { steps.new ≤ steps.old + length history.now.messages + length history.now.lines }
{
    let messages = history.messages().len();
    let mut takes = Vec::with_capacity(alloc, messages)?;
    for _made in 0..messages {
        takes.push_reserved(None);
        steps.tick();
    }
    let mut at = 0;
    let mut rest = history.lines();
    while let [line, after @ ..] = rest {
        steps.tick();
        note_take(&mut takes, *line, at);
        at += 1;
        rest = after;
    }
    Ok(takes)
}

// A line tells where its message is taken, if it takes one.
fn note_take(takes: &mut Vec<Option<u32>>, line: Line, at: u32)
    requires { TakeKnown (vec_len takes.old) line }
    ensures { takes.new.items ≡ noted_take at line takes.old.items }
{
    if let Line::Take(m) = line {
        takes[m as usize] = Some(at);
    }
}

// So many empty lists.
fn empty_lists<T: Drop, L: Ledger>(
    alloc: Global,
    n: usize,
    steps: &mut Steps<L>,
) -> Result<Vec<Vec<T>>, Memory>
    ensures lists { IfOk result (λ lists. stacks lists.items ≡ replicate n []) }
    ensures work { steps.new ≤ steps.old + n }
{
    let mut lists = Vec::with_capacity(alloc, n)?;
    for _made in 0..n {
        lists.push_reserved(Vec::new(alloc));
        steps.tick();
    }
    Ok(lists)
}
