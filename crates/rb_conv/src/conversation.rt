//! One conversation: its members, its alternates, and whether it is broken.

ghost use Rattle.std.specs.Prelude.{◌≡◌, ◌<◌, not, length, slice_get, Some, IfOk, IsTrue};
ghost use Rattle.rb_conv.specs.Conversations.{is_inside, stands, all_stand, entered, arrived, emptied, membership, opened};
ghost use Rattle.rb_conv.specs.Reject.{has_next, put_back};

use crate::member::{
    Member, Place, all_go_off_line, all_go_out, all_stand, is_inside, one_goes, outsiders,
    process_of, stands,
};
use rb_base::{Group, Memory};
use std::alloc::Global;
use std::marker::Model;

/// A conversation: its members, the conversation right around it, and its alternates.
#[derive(Drop)]
pub(crate) struct Conversation {
    members: Vec<Member>,
    parent: Option<u32>,
    alternates: u32,
    alternate: u32,
    is_broken: bool,
}

impl Model for Conversation {
    ghost use Rattle.rb_conv.specs.Conversations.{Conversation};

    ghost Value = { Conversation };

    ghost view = { λ c. record {
      members = c.members.items;
      parent = c.parent;
      alternates = c.alternates;
      talk = record { alternate = c.alternate; is_broken = c.is_broken };
    } };
}

impl Conversation {
    /// Nobody is inside, and the first alternate is next.
    pub(crate) fn new(alloc: Global, group: &Group) -> Result<Self, Memory>
        ensures { IfOk result (λ conversation. conversation ≡ opened group.now) }
    {
        let members = outsiders(alloc, &group.members)?;
        Ok(Conversation {
            members,
            parent: group.parent,
            alternates: group.alternates,
            alternate: 1,
            is_broken: false,
        })
    }

    /// How many declared members it has.
    pub(crate) fn members(&self) -> usize
        ensures { result ≡ length (membership self.now).members }
    {
        self.members.len()
    }

    /// The member with a number, as they are declared.
    pub(crate) fn member(&self, k: usize) -> u32
        requires { k < length (membership self.now).members }
        ensures { slice_get (membership self.now).members k ≡ Some result }
    {
        process_of(&self.members, k)
    }

    /// Whether a process is inside.
    pub(crate) fn is_inside(&self, p: u32) -> bool
        ensures { result ≡ is_inside p self.now }
    {
        is_inside(&self.members, p)
    }

    /// Whether a process stands at the test line.
    pub(crate) fn stands(&self, p: u32) -> bool
        ensures { result ≡ stands p self.now }
    {
        stands(&self.members, p)
    }

    /// The present alternate.
    pub(crate) fn alternate(&self) -> u32
        ensures { result ≡ self.now.talk.alternate }
    {
        self.alternate
    }

    /// Whether it is broken for good.
    pub(crate) fn is_broken(&self) -> bool
        ensures { result ≡ self.now.talk.is_broken }
    {
        self.is_broken
    }

    /// The conversation right around it.
    pub(crate) fn parent(&self) -> Option<u32>
        ensures { result ≡ self.now.parent }
    {
        self.parent
    }

    /// A process enters, unless the conversation is broken; whether it entered.
    pub(crate) fn enter(&mut self, p: u32) -> bool
        ensures entered { self.new ≡ entered p self.old }
        ensures answer { result ≡ not self.old.talk.is_broken }
    {
        if self.is_broken {
            return false;
        }
        one_goes(&mut self.members, p, Place::Inside);
        true
    }

    /// A process comes to the test line; whether all members now stand there.
    pub(crate) fn arrive(&mut self, p: u32) -> bool
        ensures arrived { self.new ≡ arrived p self.old }
        ensures answer { result ≡ all_stand self.new }
    {
        one_goes(&mut self.members, p, Place::AtLine);
        all_stand(&self.members)
    }

    /// All leave, and the first alternate is next.
    pub(crate) fn empty(&mut self)
        ensures { self.new ≡ emptied self.old }
    {
        all_go_out(&mut self.members);
        self.alternate = 1;
    }

    /// Whether an alternate is left.
    pub(crate) fn has_next(&self) -> bool
        ensures answer { result ≡ has_next self.now }
        ensures room { IsTrue result → self.now.talk.alternate < u32.MAX }
    {
        self.alternate < self.alternates
    }

    /// All go on to the next alternate if one is left. Else they leave.
    pub(crate) fn put_back(&mut self, is_left: bool)
        requires { IsTrue is_left → self.old.talk.alternate < u32.MAX }
        ensures { self.new ≡ put_back is_left self.old }
    {
        if is_left {
            all_go_off_line(&mut self.members);
            self.alternate += 1;
            return;
        }
        self.empty();
        if self.parent.is_none() {
            self.is_broken = true;
        }
    }
}
