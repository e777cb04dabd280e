//! Tests of the table, with many conversations in long chains.

ghost use Rattle.std.specs.Prelude.{◌≡◌, ◌<◌, length, IfOk, vec_len};

use rb_base::{Group, Memory, Nested};
use rb_conv::Table;
use std::alloc::Global;

// 64 conversations of the processes 0 to 63, in chains of eight.
fn chains(alloc: Global) -> Result<Nested, Memory>
    ensures { IfOk result (λ nested. vec_len nested.conversations ≡ 64) }
{
    let mut conversations = Vec::new(alloc);
    for c in 0..64_u32 {
        let parent = if c % 8 == 0 { None } else { Some(c - 1) };
        let members = (0..64_u32).collect(alloc)?;
        conversations.push(Group {
            members,
            parent,
            alternates: 2,
        })?;
    }
    Ok(Nested { conversations })
}

// All processes enter.
fn all_enter(table: &mut Table, c: u32)
    requires { c < length table.old }
    ensures { length table.new ≡ length table.old }
{
    for p in 0..64 {
        table.enter(c, p);
    }
}

// Whether somebody was the last to arrive.
fn all_but_one_arrive(table: &mut Table, c: u32) -> bool
    requires { c < length table.old }
    ensures { length table.new ≡ length table.old }
{
    let mut is_last = false;
    for p in 0..63 {
        is_last |= table.arrive(c, p);
    }
    is_last
}

// Whether the last chain, which all have entered, is rejected whole; only its first conversation has another alternate then, and
// one more rejection breaks it alone.
fn is_rejected_whole(table: &mut Table) -> bool
    requires { length table.old ≡ 64 }
{
    for c in 56..64 {
        all_enter(table, c);
    }
    table.inside(56, 0)
        && table.inside(63, 63)
        && !table.inside(55, 0)
        && !table.arrive(56, 63)
        && table.reject(56)
        && table.inside(56, 63)
        && !table.at_line(56, 63)
        && !table.inside(57, 0)
        && !table.inside(63, 63)
        && table.alternate(56) == 2
        && table.alternate(63) == 1
        && !table.reject(56)
        && table.broken(56)
        && !table.broken(57)
        && !table.inside(56, 0)
        && !table.enter(56, 0)
        && table.enter(57, 0)
}

// Whether a line is passed once all stand at it, and the conversation begins anew.
fn is_passed(table: &mut Table) -> bool
    requires { length table.old ≡ 64 }
{
    all_enter(table, 1);
    if !table.reject(1) || all_but_one_arrive(table, 1) || !table.arrive(1, 63) {
        return false;
    }
    if !table.at_line(1, 0) || !table.inside(1, 0) {
        return false;
    }
    table.pass(1);
    !table.at_line(1, 0)
        && !table.inside(1, 0)
        && table.alternate(1) == 1
        && table.enter(1, 5)
        && table.reject(1)
        && !table.reject(1)
        && !table.broken(1)
        && !table.inside(1, 5)
}

// Whether the first test, or else the second, goes well on a table of its own.
fn goes_well(alloc: Global, first: bool) -> bool {
    let Ok(nested) = chains(alloc) else {
        return false;
    };
    match Table::new(alloc, &nested) {
        Ok(mut table) => {
            if first {
                is_rejected_whole(&mut table)
            } else {
                is_passed(&mut table)
            }
        }
        Err(_) => false,
    }
}

#[test]
fn chains_are_rejected_and_lines_passed(rt: HostRuntime) {
    assert!(rt; goes_well(rt.alloc(), true) && goes_well(rt.alloc(), false));
}
