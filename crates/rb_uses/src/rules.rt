//! The rules of uses.

ghost use Rattle.std.specs.Prelude.{◌≡◌, [], map, slice_get, OnOk};
ghost use Rattle.std.specs.List.{list_all};
ghost use Rattle.rb_syntax.specs.Plain.{tree};
ghost use Rattle.rb_world.specs.Reject.{parent_of};
ghost use Rattle.rb_world.specs.World.{is_number};
ghost use Rattle.rb_meaning.specs.Groups.{channels_of, groups_of};
ghost use Rattle.rb_meaning.specs.Nesting.{alternates_of, is_end, is_member, is_same_conversation, members_in, uses_of};
ghost use Rattle.rb_scope.specs.Finding.{first_after};
ghost use Rattle.rb_nest.specs.Rules.{are_among, uses_faults};
ghost use Rattle.rb_uses.specs.Members.{ends_alone, known, known_from};
ghost use Rattle.rb_uses.specs.Memory.{all_held, deed_of, held};
ghost use Rattle.rb_uses.specs.Summary.{faults_behind, join_faults, members_within, message_faults, speaks_within, with_join};

use crate::conversations::{Facts, is_member};
use crate::ends::Ends;
use crate::joins::is_joined_before;
use crate::usage::{Deed, Use};
use crate::uses::Uses;
use rb_base::{FaultName, Memory, SourceFault};
use rb_nest::found::note;
use std::alloc::Global;

/// A program with what the rules ask of its channels and conversations, by their numbers.
#[derive(Drop)]
pub struct Rules<'u, 'p, 'a> {
    pub uses: &'u Uses<'p, 'a>,
    pub channels: Vec<Ends>,
    pub conversations: Vec<Facts>,
    ghost ends: { channels.items ≡ map ends_alone (channels_of (tree uses.now.program.now)) },
    ghost facts: { map known conversations.items ≡ known_from (tree uses.now.program.now) 0 (tree uses.now.program.now).conversations },
}

impl Rules<'_, '_, '_> {
    /// Whether a process is a member of a conversation.
    fn is_member(&self, process: usize, number: usize) -> bool
        ensures { result ≡ is_member process (members_in (tree self.now.uses.now.program.now) number) }
    {
        match self.conversations.get(number) {
            None => false,
            Some(facts) => is_member(process, &facts.members),
        }
    }

    /// Whether all members of a conversation are members of another, if one is around.
    fn are_among(&self, number: usize, within: Option<usize>) -> bool
        ensures { result
            ≡ are_among (members_in (tree self.now.uses.now.program.now) number) (members_within (tree self.now.uses.now.program.now) within) }
    {
        match within {
            None => true,
            Some(around) => self.have_members(number, around),
        }
    }

    fn have_members(&self, number: usize, around: usize) -> bool
        ensures { result
            ≡ list_all (λ m. is_member m (members_in (tree self.now.uses.now.program.now) around))
            (members_in (tree self.now.uses.now.program.now) number) }
    {
        match self.conversations.get(number) {
            None => true,
            Some(facts) => self.are_members(&facts.members, around),
        }
    }

    fn are_members(&self, members: &[usize], around: usize) -> bool
        ensures { result ≡ list_all (λ m. is_member m (members_in (tree self.now.uses.now.program.now) around)) members.now }
    {
        let mut rest = members;
        'members: while let [member, after @ ..] = rest {
            if !self.is_member(*member, around) {
                return false;
            }
            rest = after;
        }
        true
    }

    /// Whether this is the conversation right around another, or neither is there.
    fn is_parent(&self, within: Option<usize>, number: usize) -> bool
        ensures { result ≡ is_same_conversation within (parent_of (slice_get (groups_of (tree self.now.uses.now.program.now)) number)) }
    {
        match self.conversations.get(number) {
            None => within.is_none(),
            Some(facts) => facts.parent == within,
        }
    }

    /// Whether a conversation has so many alternates.
    fn has_as_many(&self, number: usize, alternates: usize) -> bool
        ensures { result ≡ is_number (alternates_of (tree self.now.uses.now.program.now) number) alternates }
    {
        match self.conversations.get(number) {
            None => self.uses.alternates(number) == Some(alternates),
            Some(facts) => facts.alternates == Some(alternates),
        }
    }

    /// Whether a process is the end of a channel at which this is done.
    fn is_end(&self, deed: Deed, process: usize, number: usize) -> bool
        ensures { result ≡ is_end (deed_of deed) process (slice_get (channels_of (tree self.now.uses.now.program.now)) number) }
    {
        match self.channels.get(number) {
            None => false,
            Some(ends) => match deed {
                Deed::Joins(_) => true,
                Deed::Sends => ends.sender == process,
                Deed::Receives => ends.receiver == process,
            },
        }
    }

    /// Whether both ends of a channel are members of a conversation, if one is around.
    fn speaks_within(&self, within: Option<usize>, number: usize) -> bool
        ensures { result
            ≡ speaks_within (tree self.now.uses.now.program.now) within (slice_get (channels_of (tree self.now.uses.now.program.now)) number) }
    {
        match within {
            None => true,
            Some(around) => match self.channels.get(number) {
                None => false,
                Some(ends) => {
                    self.is_member(ends.sender, around) && self.is_member(ends.receiver, around)
                }
            },
        }
    }

    /// Notes the rules that a `converse` with so many alternates breaks.
    fn note_join(
        &self,
        again: bool,
        alternates: usize,
        one: &Use<'_>,
        first: &mut Option<SourceFault>,
    )
        ensures { first.new ≡ first_after first.old (join_faults (tree self.now.uses.now.program.now) again alternates (held one.now)) }
    {
        let place = one.name.place;
        note(first, !one.may_join(), FaultName::N1, place);
        let is_member = self.is_member(one.process, one.number);
        note(first, !is_member, FaultName::N2, place);
        let are_among = self.are_among(one.number, one.within);
        note(first, !are_among, FaultName::N3, place);
        let is_parent = self.is_parent(one.within, one.number);
        note(first, !is_parent, FaultName::N4, place);
        let has_as_many = self.has_as_many(one.number, alternates);
        note(first, !has_as_many, FaultName::N5, place);
        note(first, again, FaultName::N7, place);
        note(first, !one.has_room, FaultName::N13, place);
    }

    /// Notes the rules that a message breaks.
    fn note_message(&self, deed: Deed, one: &Use<'_>, first: &mut Option<SourceFault>)
        ensures { first.new ≡ first_after first.old (message_faults (tree self.now.uses.now.program.now) (deed_of deed) (held one.now)) }
    {
        let place = one.name.place;
        note(first, one.in_procedure, FaultName::N8, place);
        let is_end = self.is_end(deed, one.process, one.number);
        note(first, !is_end, FaultName::N9, place);
        let speaks_within = self.speaks_within(one.within, one.number);
        note(first, !speaks_within, FaultName::N10, place);
    }

    /// Notes the rules that a use breaks. A `converse` is then one of those before the uses that follow.
    fn note_use<'a>(
        &self,
        one: &Use<'a>,
        joins: &mut Vec<Use<'a>>,
        first: &mut Option<SourceFault>,
    ) -> Result<(), Memory>
        ensures found { OnOk result
            (first.new ≡ first_after first.old (faults_behind (tree self.now.uses.now.program.now) (all_held joins.old.items) (held one.now))) }
        ensures joins { OnOk result (all_held joins.new.items ≡ with_join (all_held joins.old.items) (held one.now)) }
    {
        match one.deed {
            Deed::Joins(alternates) => {
                let again = is_joined_before(joins, one);
                self.note_join(again, alternates, one, first);
                joins.push(*one)?;
                Ok(())
            }
            Deed::Sends | Deed::Receives => {
                self.note_message(one.deed, one, first);
                Ok(())
            }
        }
    }

    /// Notes the rules that each use breaks.
    pub fn note_uses(&self, alloc: Global, first: &mut Option<SourceFault>) -> Result<(), Memory>
        ensures { OnOk result
            (first.new ≡ first_after first.old
            (uses_faults (tree self.now.uses.now.program.now) [] (uses_of (tree self.now.uses.now.program.now)))) }
    {
        let mut joins = Vec::new(alloc);
        for one in self.uses.all() {
            self.note_use(one, &mut joins, first)?;
        }
        Ok(())
    }
}
