//! The messages that a process sent up to its state, and those that it sent behind it.

ghost use Rattle.std.specs.Prelude.{◌≡◌, ◌+◌, ◌*◌, ◌<◌, ◌≤◌, length, vec_len, OnOk};
ghost use Rattle.std.specs.BTreeSet.{btree_set_len};
ghost use Rattle.std.specs.List.{AllByRecursion};
ghost use Rattle.rb_domino.specs.Board.{AreFalling, IsOrderly, Unsends, is_in, stack};

use crate::history::History;
use crate::stack::top;
use rb_base::{Memory, Steps};
use std::collections::BTreeSet;
use std::sync::ledger::Ledger;

/// Takes the messages that were sent behind a place off a stack, and adds the places where they are taken: for a tick each.
pub(crate) fn unsend<L: Ledger>(
    sends: &mut Vec<u32>,
    place: u32,
    history: &History,
    takes: &[Option<u32>],
    pending: &mut BTreeSet<u32>,
    steps: &mut Steps<L>,
) -> Result<(), Memory>
    requires orderly { IsOrderly history.now }
    requires takes { length takes.now ≡ length history.now.messages }
    requires falling { AreFalling (stack sends.old.items) }
    requires known { AllByRecursion (λ m. m < length history.now.messages) (stack sends.old.items) }
    ensures unsends { OnOk result (Unsends history.now takes.now place (stack sends.old.items) (stack sends.new.items) (is_in pending.old) (is_in pending.new)) }
    ensures work { steps.new + 3 * vec_len sends.new + btree_set_len pending.new ≤ steps.old + 3 * vec_len sends.old + btree_set_len pending.old }
{
    while let Some(m) = top(sends.as_slice()) {
        if history.messages()[m as usize].sent <= place {
            return Ok(());
        }
        if let Some(taken) = takes[m as usize] {
            pending.insert(taken)?;
            steps.tick();
        }
        sends.pop();
        steps.tick();
    }
    Ok(())
}
