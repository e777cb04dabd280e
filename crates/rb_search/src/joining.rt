//! Whether each member of a conversation has exactly one block of it, with its number of alternates.

ghost use Rattle.std.specs.Prelude.{◌≡◌, ◌<◌, ◌^◌, length, slice_get, Option, Some, None, IfOk, MatchOption};
ghost use Rattle.rb_code.specs.Instructions.Plain.{code as plain};
ghost use Rattle.rb_search.specs.Found.{found};
ghost use Rattle.rb_search.specs.Joinings.{entered, first_of as first_such, groups_join, joining_at as joining_there, joins_once as has_once, members_join, only_block, AreJoinings, EntersTwo};

use crate::cells::Cells;
use crate::staying::entry_at;
use rb_base::{Group, Memory, Nested};
use rb_code::{Code, Instr};
use rb_flow::lists::Lists;
use std::alloc::Global;

/// A block of a conversation that a process enters, and how many alternates it has.
#[derive(Clone, Copy)]
pub struct Joining {
    pub conversation: u32,
    pub process: u32,
    pub block: u32,
    pub alternates: usize,
}

/// All of them; None where a process enters two blocks of one conversation, as no sound code does. So no more are kept than conversations have
/// members.
pub fn joinings(
    alloc: Global,
    code: &Code,
    lists: &Lists,
    cells: &Cells,
) -> Result<Option<Vec<Joining>>, Memory>
    requires size { length cells.now ≡ length code.now.instrs.items }
    ensures { IfOk result (λ each. MatchOption each (EntersTwo (plain code.now) (found lists.now cells.now))
        (λ all. AreJoinings (plain code.now) (found lists.now cells.now) (length code.now.instrs.items) all.items)) }
{
    let mut all = Vec::new(alloc);
    for at in 0..cells.len() {
        match joining_at(code, lists, cells, at) {
            None => {}
            Some(one) => {
                if !is_only_block(&all, one.conversation, one.process, one.block) {
                    return Ok(None);
                }
                all.push(one)?;
            }
        }
    }
    Ok(Some(all))
}

// The block of a conversation that is entered at an address.
fn joining_at(code: &Code, lists: &Lists, cells: &Cells, at: usize) -> Option<Joining>
    ensures { result ≡ joining_there (plain code.now) (found lists.now cells.now) at }
{
    let held = match entry_at(cells, at) {
        None => return None,
        Some(held) => held,
    };
    match code.instrs.get(at) {
        None => None,
        Some(instr) => match *instr {
            Instr::Enter(b) => entering(code, held.within.process, b),
            _ => None,
        },
    }
}

fn entering(code: &Code, process: u32, b: u32) -> Option<Joining>
    ensures { result ≡ entered process b (slice_get (plain code.now).blocks b) }
{
    match code.blocks.get(b as usize) {
        None => None,
        Some(one) => match one.conversation {
            None => None,
            Some(conversation) => Some(Joining {
                conversation,
                process,
                block: b,
                alternates: one.alternates.len(),
            }),
        },
    }
}

/// Whether each member of each conversation enters exactly one block of it, with its number of alternates.
pub fn members_join_once(nested: &Nested, all: &[Joining]) -> bool
    ensures { result ≡ groups_join 0 all.now nested.now.conversations.items }
{
    groups_join_once(&nested.conversations, all)
}

fn groups_join_once(groups: &[Group], all: &[Joining]) -> bool
    requires few { length groups.now < 2 ^ 32 }
    ensures { result ≡ groups_join 0 all.now groups.now }
{
    for d in 0..groups.len() {
        if !each_joins_once(all, d as u32, groups[d].alternates, &groups[d].members) {
            return false;
        }
    }
    true
}

fn each_joins_once(all: &[Joining], conversation: u32, count: u32, members: &[u32]) -> bool
    ensures { result ≡ members_join conversation count all.now members.now }
{
    for member in members {
        if !joins_once(all, conversation, *member, count) {
            return false;
        }
    }
    true
}

fn joins_once(all: &[Joining], conversation: u32, member: u32, count: u32) -> bool
    ensures { result ≡ has_once conversation member count all.now }
{
    match first_of(all, conversation, member) {
        None => false,
        Some(one) => one.alternates == count as usize
            && is_only_block(all, conversation, member, one.block),
    }
}

fn first_of(all: &[Joining], conversation: u32, member: u32) -> Option<Joining>
    ensures { result ≡ first_such conversation member all.now }
{
    for one in all {
        if one.conversation == conversation && one.process == member {
            return Some(*one);
        }
    }
    None
}

fn is_only_block(all: &[Joining], conversation: u32, member: u32, block: u32) -> bool
    ensures { result ≡ only_block conversation member block all.now }
{
    for one in all {
        if one.conversation == conversation && one.process == member && one.block != block {
            return false;
        }
    }
    true
}
