//! What a failure leaves of a history.

ghost use Rattle.std.specs.Prelude.{◌≡◌, ◌+◌, ◌*◌, ◌<◌, ◌≤◌, ◌^◌, length, IfOk, OnOk};
ghost use Rattle.rb_domino.specs.Board.{Falls, Holds, left_on};
ghost use Rattle.rb_domino.specs.Recovery.{all_states, failure_from, falls, falls_by_messages, line_of, outcome_of};
ghost use Rattle.rb_domino.specs.RecoveryLine.{IsRecovered, recovery_line};
ghost use Rattle.rb_domino.specs.Work.{owed};

use crate::board::Board;
use crate::history::History;
use crate::line::Line;
use crate::state::Fall;
use rb_base::{Memory, Steps};
use std::alloc::Global;
use std::sync::ledger::Ledger;

/// The number of the state in which a process stands at the end of a history, behind all its recovery points.
pub const NOW: u32 = u32::MAX;

/// A state that is given up, and the message that forces it; `None` where the process failed.
#[derive(Clone, Copy)]
pub struct Dropped {
    pub process: u32,
    pub state: u32,
    pub message: Option<u32>,
}

/// The states that are given up, in their order, and the recovery line: for each process the latest state that is left.
pub struct Analysis {
    pub drops: Vec<Dropped>,
    pub line: Vec<u32>,
}

impl Drop for Analysis {
    fn drop(self) {
        let Analysis { drops: _, line: _ } = self;
    }
}

#[tactic(auto, using(crate::proofs::Orderly::orderly))]
/// The recovery line of a history, and what was given up for it. It takes at most 10 ticks for each line, also where memory is wanting: one
/// for each line, process or message that is read, each state that is given up, each message that leaves its sender's list, each place that
/// is put into the ordered set or taken off it, and each round.
pub fn analyse<L: Ledger>(
    alloc: Global,
    history: &History,
    steps: &mut Steps<L>,
) -> Result<Analysis, Memory>
    ensures drops { IfOk result (λ analysis. analysis.drops.items ≡ (outcome_of history.now).drops) }
    ensures line { IfOk result (λ analysis. analysis.line.items ≡ line_of (outcome_of history.now).left) }
    ensures recovered { IfOk result (λ analysis. IsRecovered history.now analysis.drops.items (recovery_line history.now)) }
    ensures work { steps.new ≤ steps.old + 10 * length history.now.lines }
{
    let lines = history.lines();
    let mut board = Board::new(alloc, history, steps)?;
    analyse_on(alloc, &mut board, history, lines, steps)
}

/// What a failure leaves on a board from which nothing was given up yet.
fn analyse_on<L: Ledger>(
    alloc: Global,
    board: &mut Board,
    history: &History,
    lines: &[Line],
    steps: &mut Steps<L>,
) -> Result<Analysis, Memory>
    requires holds { Holds history.now board.old }
    requires whole { left_on board.old ≡ all_states history.now }
    requires lines { lines.now ≡ history.now.lines }
    requires few { length lines.now < 2 ^ 32 }
    ensures drops { IfOk result (λ analysis. analysis.drops.items ≡ (outcome_of history.now).drops) }
    ensures line { IfOk result (λ analysis. analysis.line.items ≡ line_of (outcome_of history.now).left) }
    ensures work { steps.new ≤ steps.old + 2 * length lines.now + owed board.old + length history.now.processes }
{
    let mut drops = Vec::new(alloc);
    fall_all(board, history, lines, &mut drops, steps)?;
    let line = board.line(alloc, steps)?;
    Ok(Analysis { drops, line })
}

/// The process that failed gives up `now`, and then processes fall by messages.
fn fall_all<L: Ledger>(
    board: &mut Board,
    history: &History,
    lines: &[Line],
    drops: &mut Vec<Dropped>,
    steps: &mut Steps<L>,
) -> Result<(), Memory>
    requires holds { Holds history.now board.old }
    requires lines { lines.now ≡ history.now.lines }
    requires few { length lines.now < 2 ^ 32 }
    ensures falls { OnOk result (Falls (falls (left_on board.old) (failure_from 0 history.now.lines) (falls_by_messages history.now (length history.now.lines))) drops.old.items drops.new.items (left_on board.new)) }
    ensures holds { OnOk result (Holds history.now board.new) }
    ensures work { steps.new ≤ steps.old + 2 * length lines.now + owed board.old }
{
    let Some(fall) = failure(lines, steps) else {
        return Ok(());
    };
    board.fall(history, fall, drops, steps)?;
    fall_by_messages(board, history, lines.len(), drops, steps)
}

/// While a message breaks the line, the first such makes its receiver fall; so often at most.
fn fall_by_messages<L: Ledger>(
    board: &mut Board,
    history: &History,
    most: usize,
    drops: &mut Vec<Dropped>,
    steps: &mut Steps<L>,
) -> Result<(), Memory>
    requires { Holds history.now board.old }
    ensures falls { OnOk result (Falls (falls_by_messages history.now most (left_on board.old)) drops.old.items drops.new.items (left_on board.new)) }
    ensures holds { OnOk result (Holds history.now board.new) }
    ensures work { steps.new ≤ steps.old + owed board.old + most }
{
    for _round in 0..most {
        steps.tick();
        let Some(fall) = board.next_fall(history, steps) else {
            return Ok(());
        };
        board.fall(history, fall, drops, steps)?;
    }
    Ok(())
}

/// The fall of the process that fails.
fn failure<L: Ledger>(lines: &[Line], steps: &mut Steps<L>) -> Option<Fall>
    requires { length lines.now < 2 ^ 32 }
    ensures fails { result ≡ failure_from 0 lines.now }
    ensures work { steps.new ≤ steps.old + length lines.now }
{
    let mut at = 0;
    let mut rest = lines;
    while let [line, after @ ..] = rest {
        steps.tick();
        if let Line::Fail(process) = line {
            return Some(Fall {
                process: *process,
                after: at,
                message: None,
            });
        }
        at += 1;
        rest = after;
    }
    None
}
