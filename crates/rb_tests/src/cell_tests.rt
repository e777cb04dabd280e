//! Tests of the words of a process, up to the largest limit.

ghost use Rattle.std.specs.Prelude.{◌≡◌, ℕ, ◌<◌, []};

use rb_base::Steps;
use rb_cell::Cells;
use std::alloc::Global;
use std::marker::Brand;
use std::sync::ledger::{Blank, Ledger};

// As many words as there is room for, of which the last one is written, and then all but the first are dropped and zeroed
// again: what is read of the last word, the height between, and what is read of the last word at the end.
fn seen<L: Ledger>(cells: &mut Cells<L>, limit: u32, steps: &mut Steps<L>) -> [i64; 3]
    requires words { cells.old.words ≡ [] }
    requires limit { cells.old.limit ≡ limit }
    requires some { 0 < limit }
{
    cells.push_zeros(limit, steps);
    cells.write(limit - 1, i64::MIN, steps);
    let written = cells.read(limit - 1, steps);
    cells.drop_to(1);
    let height = i64::from(cells.height());
    cells.push_zeros(limit - 1, steps);
    [written, height, cells.read(limit - 1, steps)]
}

fn come_and_go<L: Ledger>(alloc: Global, blank: Blank, limit: u32) -> bool
    requires limit { 0 < limit }
    requires name { blank.name ≡ L.name }
    requires parts { blank.parts ≡ L.parts }
    requires backed { 0 < blank.parts }
{
    let mut steps = Steps::<L>::start(blank);
    match Cells::new(alloc, limit) {
        Ok(mut cells) => seen(&mut cells, limit, &mut steps) == [i64::MIN, 1, 0],
        Err(_) => false,
    }
}

#[test]
fn words_come_and_go(rt: HostRuntime) {
    assert!(rt; come_and_go::<Brand>(rt.alloc(), Blank::new(1), 65_536));
}
