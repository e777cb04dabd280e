//! Uses of conversations and channels.

ghost use Rattle.std.specs.Prelude.{◌≡◌};
ghost use Rattle.rb_uses.specs.Memory.{deed_of, held};
ghost use Rattle.rb_uses.specs.Summary.{is_join, joins_at, joins_like, may_join};

use rb_syntax::Name;

/// What is done with the name of a conversation or a channel.
#[derive(Clone, Copy)]
pub(crate) enum Deed {
    /// A conversation is joined, with so many alternates.
    Joins(usize),
    Sends,
    Receives,
}

/// A use of a conversation or a channel by its name, and what the recovery blocks around it are to the rules: the innermost
/// conversation, whether each is a `converse`, and whether one conversation more may stand inside them.
#[derive(Clone, Copy)]
pub(crate) struct Use<'a> {
    pub(crate) name: Name<'a>,
    pub(crate) number: usize,
    pub(crate) deed: Deed,
    pub(crate) process: usize,
    pub(crate) in_procedure: bool,
    pub(crate) within: Option<usize>,
    pub(crate) all_converse: bool,
    pub(crate) has_room: bool,
}

impl Use<'_> {
    /// Whether a conversation is joined.
    pub(crate) fn is_join(&self) -> bool
        ensures { result ≡ is_join (held self.now).deed }
    {
        match self.deed {
            Deed::Joins(_) => true,
            Deed::Sends | Deed::Receives => false,
        }
    }

    /// Whether a `converse` may stand here: in no procedure, and in no alternate of an `ensure`.
    pub(crate) fn may_join(&self) -> bool
        ensures { result ≡ may_join (held self.now) }
    {
        !self.in_procedure && self.all_converse
    }

    /// Whether a process joins the conversation of this name.
    pub(crate) fn joins_at(&self, process: usize, name: &[u8]) -> bool
        ensures { result ≡ joins_at process name.now (held self.now) }
    {
        self.is_join() && self.process == process && self.name.text == name
    }

    /// Whether another use joins the conversation of this name in the same process.
    pub(crate) fn joins_like(&self, other: &Use<'_>) -> bool
        ensures { result ≡ joins_like (held self.now) (held other.now) }
    {
        other.is_join() && self.process == other.process && self.name.text == other.name.text
    }
}
