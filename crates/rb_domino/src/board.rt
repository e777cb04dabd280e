//! What is left to each process while states are given up, and which messages may break the line.

ghost use Rattle.std.specs.Prelude.{◌≡◌, ◌+◌, ◌*◌, ◌<◌, ◌≤◌, ◌++◌, vec_len, length, IfOk, OnOk, IfSome};
ghost use Rattle.rb_domino.specs.Board.{Holds, IsOrderly, left_on};
ghost use Rattle.rb_domino.specs.History.{IsWhole};
ghost use Rattle.rb_domino.specs.Work.{owed};
ghost use Rattle.rb_domino.specs.Recovery.{all_states, drops_of, first_fall, left_after, line_of, stands};

use crate::analysis::Dropped;
use crate::history::History;
use crate::line::Line;
use crate::sends::unsend;
use crate::state::{Fall, State, give_up, latest};
use crate::tables::{all_sends, all_states, all_takes};
use rb_base::{Memory, Steps};
use std::alloc::Global;
use std::collections::BTreeSet;
use std::sync::ledger::Ledger;

/// What is left to each process, the latest state at the end; the messages that it sent up to this state, the last at the
/// end; for each message where it is taken; and the places of the `take` lines whose messages may break the line, which
/// each message joins once.
#[derive(Drop)]
pub(crate) struct Board {
    states: Vec<Vec<State>>,
    sends: Vec<Vec<u32>>,
    takes: Vec<Option<u32>>,
    pending: BTreeSet<u32>,
}

impl Board {
    /// Before anything is given up.
    pub(crate) fn new<L: Ledger>(
        alloc: Global,
        history: &History,
        steps: &mut Steps<L>,
    ) -> Result<Self, Memory>
        requires orderly { IsOrderly history.now }
        requires whole { IsWhole history.now }
        ensures holds { IfOk result (λ board. Holds history.now board) }
        ensures left { IfOk result (λ board. left_on board ≡ all_states history.now) }
        ensures owed { IfOk result (λ board. owed board ≤ length history.now.lines + length history.now.processes + 3 * length history.now.messages) }
        ensures work { steps.new ≤ steps.old + 2 * length history.now.lines + 3 * length history.now.processes + 2 * length history.now.messages }
    {
        let states = all_states(alloc, history, steps)?;
        let sends = all_sends(alloc, history, steps)?;
        let takes = all_takes(alloc, history, steps)?;
        let pending = BTreeSet::new(alloc);
        Ok(Board {
            states,
            sends,
            takes,
            pending,
        })
    }

    /// The fall by the first message that breaks the line.
    pub(crate) fn next_fall<L: Ledger>(
        &mut self,
        history: &History,
        steps: &mut Steps<L>,
    ) -> Option<Fall>
        requires { Holds history.now self.old }
        ensures fall { result ≡ first_fall history.now (left_on self.old) }
        ensures known { IfSome result (λ fall. fall.process < length history.now.processes) }
        ensures left { left_on self.new ≡ left_on self.old }
        ensures holds { Holds history.now self.new }
        ensures work { steps.new + owed self.new ≤ steps.old + owed self.old }
    {
        while let Some(taken) = self.pending.first().copied() {
            if let Line::Take(m) = history.lines()[taken as usize] {
                let receiver = history.messages()[m as usize].receiver;
                if taken < self.place(receiver) {
                    return Some(Fall {
                        process: receiver,
                        after: taken,
                        message: Some(m),
                    });
                }
            }
            self.pending.remove(&taken);
            steps.tick();
        }
        None
    }

    /// A process gives up its states after a place.
    pub(crate) fn fall<L: Ledger>(
        &mut self,
        history: &History,
        fall: Fall,
        drops: &mut Vec<Dropped>,
        steps: &mut Steps<L>,
    ) -> Result<(), Memory>
        requires holds { Holds history.now self.old }
        requires known { fall.process < length history.now.processes }
        ensures drops { OnOk result (drops.new.items ≡ drops.old.items ++ drops_of fall (left_on self.old)) }
        ensures left { OnOk result (left_on self.new ≡ left_after fall (left_on self.old)) }
        ensures holds { OnOk result (Holds history.now self.new) }
        ensures work { steps.new + owed self.new ≤ steps.old + owed self.old }
    {
        let process = fall.process as usize;
        give_up(&mut self.states[process], fall, drops, steps)?;
        let place = self.place(fall.process);
        unsend(
            &mut self.sends[process],
            place,
            history,
            self.takes.as_slice(),
            &mut self.pending,
            steps,
        )
    }

    /// The number of the state in which each process stands.
    pub(crate) fn line<L: Ledger>(
        &self,
        alloc: Global,
        steps: &mut Steps<L>,
    ) -> Result<Vec<u32>, Memory>
        ensures line { IfOk result (λ line. line.items ≡ line_of (left_on self.now)) }
        ensures work { steps.new ≤ steps.old + vec_len self.now.states }
    {
        let mut line = Vec::with_capacity(alloc, self.states.len())?;
        for states in &self.states {
            line.push_reserved(latest(states.as_slice()).number);
            steps.tick();
        }
        Ok(line)
    }

    // Where a process stands.
    fn place(&self, process: u32) -> u32
        requires { process < vec_len self.now.states }
        ensures { result ≡ (stands (left_on self.now) process).place }
    {
        latest(self.states[process as usize].as_slice()).place
    }
}
