//! Whether the lists of a code and its conversations are well formed.

ghost use Rattle.std.specs.Prelude.{◌≡◌, ◌↔◌, Err, IfOk, IsTrue, OnOk};
ghost use Rattle.rb_lists.specs.Lists.{HasLists};
ghost use Rattle.rb_lists.specs.Parts.{AreLawful, AreNested, AreSpelled, NamesSpelled, StandThere};

use crate::blocks::are_blocks;
use crate::channels::{all_join_two, are_listed};
use crate::distinct::names_differ;
use crate::few::{are_few, have_names};
use crate::groups::{Chains, Parents, Processes};
use crate::instrs::all_name_entries;
use crate::names::are_namings;
use crate::once::has_one_each;
use crate::parts::{are_parts, variables_lie};
use crate::rule::all_allowed;
use crate::texts::are_quotable;
use rb_base::{Edition, Group, Memory, Names, Nested};
use rb_code::Code;
use std::alloc::Global;

/// Why a code is refused.
#[derive(Clone, Copy)]
pub enum Refusal {
    /// It isn't sound.
    Unsound,
    /// Memory was wanting.
    Memory,
}

/// Ok where the lists of a code and its conversations are well formed and each variable that is printed lies within the words of its
/// process; `Unsound` exactly where they are not, and `Memory` if it is wanting: for the list of names, and for a mark a block.
pub fn check_lists(alloc: Global, code: &Code, nested: &Nested) -> Result<(), Refusal>
    ensures ok { OnOk result (HasLists code.now nested.now) }
    ensures unsound { result ≡ Err Refusal.Unsound → HasLists code.now nested.now → ⊥ }
{
    match has_lists(alloc, code, nested) {
        Ok(true) => Ok(()),
        Ok(false) => Err(Refusal::Unsound),
        Err(Memory) => Err(Refusal::Memory),
    }
}

fn has_lists(alloc: Global, code: &Code, nested: &Nested) -> Result<bool, Memory>
    ensures { IfOk result (λ told. IsTrue told ↔ HasLists code.now nested.now) }
{
    if !are_lawful(code, nested) {
        return Ok(false);
    }
    if !names_differ(alloc, &code.names)? {
        return Ok(false);
    }
    has_one_each(alloc, code)
}

// All that takes no memory. The counts come first: then no list of names and of conversations is long.
fn are_lawful(code: &Code, nested: &Nested) -> bool
    ensures { IsTrue result ↔ AreLawful code.now nested.now }
{
    are_few(code, nested)
        && have_names(code, nested)
        && are_spelled(code)
        && stand_there(code, nested)
        && are_nested(code.processes.len(), &nested.conversations)
}

fn are_spelled(code: &Code) -> bool
    ensures { IsTrue result ↔ AreSpelled code.now }
{
    names_spelled(code.edition, &code.names)
        && all_allowed(&code.edition, &code.processes)
        && are_quotable(&code.texts)
}

fn names_spelled(edition: Edition, names: &Names) -> bool
    ensures { IsTrue result ↔ NamesSpelled edition names.now }
{
    all_allowed(&edition, &names.processes)
        && are_namings(edition, &names.channels)
        && are_namings(edition, &names.conversations)
}

fn stand_there(code: &Code, nested: &Nested) -> bool
    ensures { IsTrue result ↔ StandThere code.now nested.now }
{
    are_parts(code)
        && all_join_two(code)
        && are_listed(code)
        && are_blocks(code, &nested.conversations)
        && all_name_entries(code)
        && variables_lie(&code.names.processes, &code.processes)
}

// The members come before the parents: then no list of members is long.
fn are_nested(processes: usize, groups: &[Group]) -> bool
    ensures { IsTrue result ↔ AreNested processes groups.now }
{
    all_allowed(&Processes(processes), groups)
        && all_allowed(&Parents(groups), groups)
        && all_allowed(&Chains(groups), groups)
}
