//! The states of processes, and why they are given up.

ghost use Rattle.std.specs.Prelude.{◌≡◌, ◌+◌, ◌≤◌, ◌++◌, map, vec_len, OnOk};
ghost use Rattle.rb_domino.specs.Board.{stack};
ghost use Rattle.rb_domino.specs.Recovery.{latest, states_after, states_before};

use crate::analysis::Dropped;
use crate::stack::top;
use rb_base::{Memory, Steps};
use std::sync::ledger::Ledger;

/// A state of a process: the number of a recovery point, or `NOW`, and its place among the lines of the history.
#[derive(Clone, Copy)]
pub struct State {
    pub number: u32,
    pub place: u32,
}

/// Why a process gives up its states after a place: it failed there, or it took a message there that breaks the line.
#[derive(Clone, Copy)]
pub struct Fall {
    pub process: u32,
    pub after: u32,
    pub message: Option<u32>,
}

/// The latest of the states that are left.
pub(crate) fn latest(states: &[State]) -> State
    ensures { result ≡ latest (stack states.now) }
{
    top(states).unwrap_or(State {
        number: 0,
        place: 0,
    })
}

/// Gives up the states after a place, from the latest to the earliest, for a tick each.
pub(crate) fn give_up<L: Ledger>(
    states: &mut Vec<State>,
    fall: Fall,
    drops: &mut Vec<Dropped>,
    steps: &mut Steps<L>,
) -> Result<(), Memory>
    ensures left { OnOk result (stack states.new.items ≡ states_before fall.after (stack states.old.items)) }
    ensures drops { OnOk result (drops.new.items ≡ drops.old.items ++ map (λ state. record { process = fall.process; state = state.number; message = fall.message }) (states_after fall.after (stack states.old.items))) }
    ensures work { steps.new + vec_len states.new ≤ steps.old + vec_len states.old }
{
    while let Some(state) = top(states.as_slice()) {
        if state.place <= fall.after {
            return Ok(());
        }
        drops.push(Dropped {
            process: fall.process,
            state: state.number,
            message: fall.message,
        })?;
        states.pop();
        steps.tick();
    }
    Ok(())
}
