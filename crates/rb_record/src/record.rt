//! Records: the list of kept turns that a text stands for.

ghost use Rattle.std.specs.Prelude.{◌≡◌, ℕ, ◌<◌, ◌≤◌, ◌^◌, List, length, vec_len, Ok, Err, IfOk, MatchResult};
ghost use Rattle.rb_base.specs.Naming.{process_names};
ghost use Rattle.rb_base.specs.declared.kept.Kept.{Kept as PlainTurn};
ghost use Rattle.rb_record.specs.Record.{record_of};
ghost use Rattle.rb_record.specs.Recorded.{IsRefusedFor, AreKept};

use crate::record_line::line_turn;
use rb_base::{Kept, MOST_BYTES, MOST_TURNS, Names, TextFault};
use rb_sched::words::first_line;
use std::alloc::Global;
use std::marker::Model;

/// Why a record was not taken.
#[derive(Clone, Copy)]
pub enum RecordRefusal {
    /// The first fault of the text.
    Fault(TextFault),
    Memory,
}

/// The kept turns of a run, in the order of their numbers. Contracts see their list.
#[derive(Drop)]
pub struct Record {
    turns: Vec<Kept>,
}

impl Model for Record {
    ghost use Rattle.std.specs.Prelude.{List};
    ghost use Rattle.rb_base.specs.declared.kept.Kept.{Kept as PlainTurn};

    ghost Value = { List PlainTurn };

    ghost view = { λ r. r.turns.items };
}

impl Record {
    #[tactic(auto, using(crate::proofs::Records::records_rise_in))]
    /// Reads a whole record, and answers its first fault where it has one. Memory is taken for the list of its turns alone.
    pub fn read(alloc: Global, text: &[u8], names: &Names) -> Result<Record, RecordRefusal>
        requires short { length text.now ≤ MOST_BYTES }
        ensures turns { let turns = record_of (process_names names.now) text.now in
            MatchResult result (λ kept. turns ≡ Ok kept) (λ refusal. IsRefusedFor turns refusal) }
        ensures known { IfOk result (λ kept. AreKept (vec_len names.now.processes) 0 kept) }
        ensures few { IfOk result (λ kept. length kept ≤ MOST_TURNS) }
    {
        let turns = kept_turns(alloc, text, names)?;
        Ok(Record { turns })
    }

    /// The kept turns in order.
    pub fn turns(&self) -> &[Kept]
        ensures { result.now ≡ self.now }
    {
        self.turns.as_slice()
    }
}

#[tactic(auto, using(crate::proofs::Records::read_none, crate::proofs::Records::read_kept))]
/// The kept turns of a text, or its first fault.
fn kept_turns(alloc: Global, text: &[u8], names: &Names) -> Result<Vec<Kept>, RecordRefusal>
    requires short { length text.now ≤ MOST_BYTES }
    ensures { let turns = record_of (process_names names.now) text.now in
        MatchResult result (λ kept. turns ≡ Ok kept.items) (λ refusal. IsRefusedFor turns refusal) }
{
    let mut turns = Vec::new(alloc);
    let mut last = 0;
    let mut at = 1;
    let mut rest = text;
    while !rest.is_empty() {
        let (line, after) = first_line(rest);
        match line_turn(line, last, names) {
            Ok(None) => {}
            Ok(Some(kept)) => {
                last = kept.turn;
                turns.push(kept).map_err(|_| RecordRefusal::Memory)?;
            }
            Err(name) => return Err(RecordRefusal::Fault(TextFault { name, at })),
        }
        at += 1;
        rest = after;
    }
    Ok(turns)
}
