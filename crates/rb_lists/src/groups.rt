//! Conversations: their members, their parents, and how deep they lie.

ghost use Rattle.std.specs.Prelude.{◌≡◌, ◌↔◌, ◌-◌, ◌<◌, ℕ, IsTrue, Some, length, map, nat_eq, slice_get};
ghost use Rattle.std.specs.List.{All, IsDistinct, list_any};
ghost use Rattle.rb_base.specs.declared.limits.TheConstants.{MOST_NESTED};
ghost use Rattle.rb_world.specs.Reject.{parent_of};
ghost use Rattle.rb_nest.specs.Groups.{membership};
ghost use Rattle.rb_code.specs.SoundCode.Sound.{IsMember};
ghost use Rattle.rb_code.specs.SoundCode.WellFormed.{IsChain};
ghost use Rattle.rb_lists.specs.Groups.{HasMembers, HasParent};

use crate::rule::{Allows, all_allowed};
use rb_base::{Group, MOST_NESTED};

/// So many processes, of which each conversation has two or more, all different.
#[derive(Clone, Copy)]
pub(crate) struct Processes(pub(crate) usize);

impl Allows<Group> for Processes {
    ghost Law = { λ processes group. HasMembers processes.0 (membership group) };

    fn allows(&self, group: &Group) -> bool {
        group.members.len() >= 2 && are_different(self.0, &group.members)
    }
}

// Each of these is compared with those before it. The first number that is no process or stood before ends it, so it makes few comparisons
// however long the list is.
fn are_different(processes: usize, members: &[u32]) -> bool
    ensures { IsTrue result ↔ (IsDistinct nat_eq members.now × All (λ member. member < processes) members.now) }
{
    for (index, member) in members.iter().enumerate() {
        if *member as usize >= processes || is_member(*member, &members[..index]) {
            return false;
        }
    }
    true
}

/// All conversations, of which the parent of each is one, and has all of its members.
#[derive(Clone, Copy)]
pub(crate) struct Parents<'g>(pub(crate) &'g [Group]);

impl<'g> Allows<Group> for Parents<'g> {
    ghost Law = { λ parents group. HasParent (map membership parents.0.now) (membership group) };

    fn allows(&self, group: &Group) -> bool {
        match group.parent {
            None => true,
            Some(parent) => match self.0.get(parent as usize) {
                None => false,
                Some(around) => all_allowed(&Members(&around.members), &group.members),
            },
        }
    }
}

// The members of a conversation.
#[derive(Clone, Copy)]
struct Members<'m>(&'m [u32]);

impl<'m> Allows<u32> for Members<'m> {
    ghost Law = { λ members member. IsMember member members.0.now };

    fn allows(&self, member: &u32) -> bool {
        is_member(*member, self.0)
    }
}

fn is_member(member: u32, members: &[u32]) -> bool
    ensures { result ≡ list_any (λ other. nat_eq other member) members.now }
{
    members.contains(&member)
}

/// All conversations, of which each lies in few enough others.
#[derive(Clone, Copy)]
pub(crate) struct Chains<'g>(pub(crate) &'g [Group]);

impl<'g> Allows<Group> for Chains<'g> {
    ghost Law = { λ chains group. IsChain (map membership chains.0.now) (MOST_NESTED - 1) group.parent };

    fn allows(&self, group: &Group) -> bool {
        ends_within(self.0, MOST_NESTED - 1, group.parent)
    }
}

// Whether a chain of conversations, each the parent of the one before, has at most so many.
fn ends_within(groups: &[Group], most: usize, first: Option<u32>) -> bool
    ensures { IsTrue result ↔ IsChain (map membership groups.now) most first }
{
    match first {
        None => true,
        Some(group) => most > 0 && ends_within(groups, most - 1, parent_of(groups, group)),
    }
}

fn parent_of(groups: &[Group], group: u32) -> Option<u32>
    ensures { result ≡ parent_of (slice_get (map membership groups.now) group) }
{
    match groups.get(group as usize) {
        None => None,
        Some(group) => group.parent,
    }
}
