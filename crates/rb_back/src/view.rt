//! What a session shows at its position: how each process stands, and its variables.

ghost use Rattle.std.specs.Prelude.{◌≡◌, ◌+◌, ◌<◌, ◌≤◌, [], ◌∷◌, length, slice_set, count_by};
ghost use Rattle.rb_base.specs.Lines.{belonging};
ghost use Rattle.rb_cell.specs.Store.{Store};
ghost use Rattle.rb_back.specs.Picture.{is_word, picture, redone, redone_all, undone, undone_all, with_word};

use rb_base::{State, Steps};
use rb_cell::Cells;
use std::sync::ledger::Ledger;

/// How each process stands, and the words of its variables.
#[derive(Drop)]
pub(crate) struct View<L: Ledger> {
    pub states: Vec<State>,
    pub words: Vec<Cells<L>>,
}

/// What a turn changed: a word of a process, or how a process stands.
#[derive(Clone, Copy)]
pub(crate) enum Change {
    Word {
        process: u32,
        at: u32,
        before: i64,
        after: i64,
    },
    Standing {
        process: u32,
        before: State,
        after: State,
    },
}

/// Makes changes again, in their order, for at most one tick a word.
pub(crate) fn redo_all<L: Ledger>(view: &mut View<L>, changes: &[Change], steps: &mut Steps<L>)
    ensures view { picture view.new ≡ redone_all changes.now (picture view.old) }
    ensures work { steps.new ≤ steps.old + count_by is_word changes.now }
{
    let mut rest = changes;
    while let [first, after @ ..] = rest {
        redo(view, first, steps);
        rest = after;
    }
}

/// Takes changes back, the last one first, for at most one tick a word.
pub(crate) fn undo_all<L: Ledger>(view: &mut View<L>, changes: &[Change], steps: &mut Steps<L>)
    ensures view { picture view.new ≡ undone_all changes.now (picture view.old) }
    ensures work { steps.new ≤ steps.old + count_by is_word changes.now }
{
    let mut rest = changes;
    while let Some((last, before)) = rest.split_last() {
        undo(view, last, steps);
        rest = before;
    }
}

fn redo<L: Ledger>(view: &mut View<L>, change: &Change, steps: &mut Steps<L>)
    ensures view { picture view.new ≡ redone change.now (picture view.old) }
    ensures work { steps.new ≤ steps.old + count_by is_word (change.now ∷ []) }
{
    match *change {
        Change::Word {
            process,
            at,
            after,
            ..
        } => put_word(view, process, at, after, steps),
        Change::Standing { process, after, .. } => put_state(view, process, after),
    }
}

fn undo<L: Ledger>(view: &mut View<L>, change: &Change, steps: &mut Steps<L>)
    ensures view { picture view.new ≡ undone change.now (picture view.old) }
    ensures work { steps.new ≤ steps.old + count_by is_word (change.now ∷ []) }
{
    match *change {
        Change::Word {
            process,
            at,
            before,
            ..
        } => put_word(view, process, at, before, steps),
        Change::Standing {
            process,
            before,
            ..
        } => put_state(view, process, before),
    }
}

/// Puts a word of a process, if it is there.
pub(crate) fn put_word<L: Ledger>(
    view: &mut View<L>,
    process: u32,
    at: u32,
    value: i64,
    steps: &mut Steps<L>,
)
    ensures view { picture view.new ≡ record (picture view.old) { words = with_word process at value (picture view.old).words } }
    ensures work { steps.new ≤ steps.old + 1 }
{
    if (process as usize) < view.words.len() {
        write(&mut view.words[process as usize], at, value, steps);
    }
}

// Changes a word, if it is there.
fn write<L: Ledger>(words: &mut Cells<L>, at: u32, value: i64, steps: &mut Steps<L>)
    ensures words { words.new ≡ record { words = slice_set words.old.words at value; limit = words.old.limit } }
    ensures work { steps.new ≤ steps.old + 1 }
{
    if at < words.height() {
        words.write(at, value, steps);
    }
}

/// Puts how a process stands, if it is there.
pub(crate) fn put_state<L: Ledger>(view: &mut View<L>, process: u32, state: State)
    ensures { picture view.new ≡ record (picture view.old) { states = slice_set (picture view.old).states process state } }
{
    if (process as usize) < view.states.len() {
        view.states[process as usize] = state;
    }
}
