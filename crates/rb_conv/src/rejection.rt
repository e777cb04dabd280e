//! Rejecting a conversation, together with all that lie below it.

ghost use Rattle.std.specs.Prelude.{◌≡◌, ◌<◌, length, cond};
ghost use Rattle.rb_world.specs.Reject.{is_below};
ghost use Rattle.rb_conv.specs.Conversations.{conversation_at, emptied, memberships};
ghost use Rattle.rb_conv.specs.Reject.{emptied_below, has_next, rejected};

use crate::conversation::Conversation;

/// Whether conversation `d` lies below conversation `c`.
fn is_below(conversations: &[Conversation], c: u32, d: usize) -> bool
    ensures { result ≡ is_below (memberships conversations.now) (length conversations.now) c d }
{
    let mut lower = d;
    for _step in 0..conversations.len() {
        let Some(conversation) = conversations.get(lower) else {
            return false;
        };
        let Some(parent) = conversation.parent() else {
            return false;
        };
        if parent == c {
            return true;
        }
        lower = parent as usize;
    }
    false
}

fn empty_if(conversation: &mut Conversation, is_below: bool)
    ensures { conversation.new ≡ cond is_below (emptied conversation.old) conversation.old }
{
    if is_below {
        conversation.empty();
    }
}

/// Every conversation below `c` is left by all, and its first alternate is next.
fn empty_below(conversations: &mut [Conversation], c: u32)
    ensures { conversations.new ≡ emptied_below c conversations.old }
{
    for d in 0..conversations.len() {
        let is_below = is_below(conversations, c, d);
        empty_if(&mut conversations[d], is_below);
    }
}

/// A conversation is rejected for all that are inside; whether an alternate is left.
pub(crate) fn reject(conversations: &mut [Conversation], c: u32) -> bool
    requires { c < length conversations.old }
    ensures rejected { conversations.new ≡ rejected c conversations.old }
    ensures answer { result ≡ has_next (conversation_at conversations.old c) }
{
    let is_left = conversations[c as usize].has_next();
    empty_below(conversations, c);
    conversations[c as usize].put_back(is_left);
    is_left
}
