//! Recovery blocks: what each names, and its bound.

ghost use Rattle.std.specs.Prelude.{◌≡◌, ◌↔◌, ◌<◌, ◌≤◌, ℕ, IsTrue, Some, length, map};
ghost use Rattle.std.specs.List.{All};
ghost use Rattle.rb_nest.specs.Groups.{membership};
ghost use Rattle.rb_code.specs.Instructions.Plain.{block as plain_block, code as plain};
ghost use Rattle.rb_code.specs.SoundCode.WellFormed.{IsBlock, IsWithin};

use crate::rule::{Allows, Below, all_allowed};
use rb_base::{Group, MOST_TURNS};
use rb_code::{BlockCode, Code};

/// Whether each block has a lawful bound and an alternate, and names a conversation and instructions that are there.
pub(crate) fn are_blocks(code: &Code, groups: &[Group]) -> bool
    ensures { IsTrue result ↔ All (λ block. IsBlock (plain code.now) (map membership groups.now) (plain_block block)) code.now.blocks.items }
{
    all_allowed(&Blocks { code, groups }, &code.blocks)
}

// What blocks name.
#[derive(Clone, Copy)]
struct Blocks<'c> {
    code: &'c Code,
    groups: &'c [Group],
}

impl<'c> Allows<BlockCode> for Blocks<'c> {
    ghost Law = { λ blocks block. IsBlock (plain blocks.code.now) (map membership blocks.groups.now) (plain_block block) };

    fn allows(&self, block: &BlockCode) -> bool {
        let instrs = self.code.instrs.len();
        is_bound(block.bound)
            && is_conversation(self.groups.len(), block.conversation)
            && stand_there(instrs, block)
            && !block.alternates.is_empty()
            && all_allowed(&Below(instrs), &block.alternates)
    }
}

fn is_bound(bound: u32) -> bool
    ensures { IsTrue result ↔ IsWithin MOST_TURNS bound }
{
    1 <= bound && bound <= MOST_TURNS
}

fn is_conversation(groups: usize, conversation: Option<u32>) -> bool
    ensures { IsTrue result ↔ ((d : ℕ) → conversation ≡ Some d → d < groups) }
{
    match conversation {
        None => true,
        Some(group) => (group as usize) < groups,
    }
}

fn stand_there(instrs: usize, block: &BlockCode) -> bool
    ensures { IsTrue result ↔ ((block.now.restart < instrs) × (block.now.test < instrs)) }
{
    (block.restart as usize) < instrs && (block.test as usize) < instrs
}
