//! The table of all conversations of a program, by number.

ghost use Rattle.std.specs.Prelude.{◌≡◌, ◌<◌, not, List, length, slice_get, Some, IfOk, vec_len};
ghost use Rattle.rb_world.specs.World.{change_at};
ghost use Rattle.rb_conv.specs.Conversations.{is_inside, stands, all_stand, entered, arrived, emptied, conversation_at, membership, opening};
ghost use Rattle.rb_conv.specs.Reject.{has_next, rejected};

use crate::conversation::Conversation;
use crate::rejection::reject;
use rb_base::{Memory, Nested};
use std::alloc::Global;
use std::marker::Model;

/// The conversations of a program, by number: where the members of each are, its present alternate, and
/// whether it is broken. Contracts see the list of the conversations.
#[derive(Drop)]
pub struct Table {
    conversations: Vec<Conversation>,
}

impl Model for Table {
    ghost use Rattle.std.specs.Prelude.{List};
    ghost use Rattle.rb_conv.specs.Conversations.{Conversation};

    ghost Value = { List Conversation };

    ghost view = { λ t. t.conversations.items };
}

impl Table {
    /// Nobody is inside a conversation, each is at its first alternate, and none is broken. No other call
    /// takes memory.
    pub fn new(alloc: Global, nested: &Nested) -> Result<Self, Memory>
        ensures opening { IfOk result (λ table. table ≡ opening nested.now) }
        ensures as_many { IfOk result (λ table. length table ≡ vec_len nested.now.conversations) }
    {
        let mut conversations = Vec::with_capacity(alloc, nested.conversations.len())?;
        for group in &nested.conversations {
            conversations.push_reserved(Conversation::new(alloc, group)?);
        }
        Ok(Table { conversations })
    }

    /// How many declared members conversation `c` has.
    pub fn members(&self, c: u32) -> usize
        requires { c < length self.now }
        ensures { result ≡ length (membership (conversation_at self.now c)).members }
    {
        self.conversations[c as usize].members()
    }

    /// Member number `k` of conversation `c`, in the order in which they are declared.
    pub fn member(&self, c: u32, k: usize) -> u32
        requires conversation { c < length self.now }
        requires member { k < length (membership (conversation_at self.now c)).members }
        ensures { slice_get (membership (conversation_at self.now c)).members k ≡ Some result }
    {
        self.conversations[c as usize].member(k)
    }

    /// Whether process `p` is inside conversation `c`.
    pub fn inside(&self, c: u32, p: u32) -> bool
        requires { c < length self.now }
        ensures { result ≡ is_inside p (conversation_at self.now c) }
    {
        self.conversations[c as usize].is_inside(p)
    }

    /// Whether process `p` stands at the test line of conversation `c`.
    pub fn at_line(&self, c: u32, p: u32) -> bool
        requires { c < length self.now }
        ensures { result ≡ stands p (conversation_at self.now c) }
    {
        self.conversations[c as usize].stands(p)
    }

    /// The present alternate of conversation `c`.
    pub fn alternate(&self, c: u32) -> u32
        requires { c < length self.now }
        ensures { result ≡ (conversation_at self.now c).talk.alternate }
    {
        self.conversations[c as usize].alternate()
    }

    /// Whether conversation `c` is broken for good.
    pub fn broken(&self, c: u32) -> bool
        requires { c < length self.now }
        ensures { result ≡ (conversation_at self.now c).talk.is_broken }
    {
        self.conversations[c as usize].is_broken()
    }

    /// Member `p` enters conversation `c`. It answers false exactly where the conversation is broken, and
    /// then nothing changes.
    pub fn enter(&mut self, c: u32, p: u32) -> bool
        requires { c < length self.old }
        ensures entered { self.new ≡ change_at c (entered p) self.old }
        ensures as_many { length self.new ≡ length self.old }
        ensures answer { result ≡ not (conversation_at self.old c).talk.is_broken }
    {
        self.conversations[c as usize].enter(p)
    }

    /// Member `p`, which is inside conversation `c`, comes to its test line. It answers true exactly where
    /// all members now stand there.
    pub fn arrive(&mut self, c: u32, p: u32) -> bool
        requires { c < length self.old }
        ensures arrived { self.new ≡ change_at c (arrived p) self.old }
        ensures as_many { length self.new ≡ length self.old }
        ensures answer { result ≡ all_stand (conversation_at self.new c) }
    {
        self.conversations[c as usize].arrive(p)
    }

    /// All members leave conversation `c` together, and its first alternate is next.
    pub fn pass(&mut self, c: u32)
        requires { c < length self.old }
        ensures passed { self.new ≡ change_at c emptied self.old }
        ensures as_many { length self.new ≡ length self.old }
    {
        self.conversations[c as usize].empty();
    }

    /// Conversation `c` is rejected for all that are inside. Conversations below it are left by all, and
    /// return to their first alternate. It answers true exactly where an alternate is left: then nobody
    /// stands at the test line of `c`, and its alternate rises. Else all leave it, its first alternate is
    /// next, and it is broken exactly if no conversation is around it.
    pub fn reject(&mut self, c: u32) -> bool
        requires { c < length self.old }
        ensures rejected { self.new ≡ rejected c self.old }
        ensures as_many { length self.new ≡ length self.old }
        ensures answer { result ≡ has_next (conversation_at self.old c) }
    {
        reject(&mut self.conversations, c)
    }
}
