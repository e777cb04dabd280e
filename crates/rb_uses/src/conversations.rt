//! The conversations of a program as the rules ask for them, and the rules of their members.

ghost use Rattle.std.specs.Prelude.{◌≡◌, [], map, reverse, IfOk, OnOk};
ghost use Rattle.std.specs.List.{flat_map, list_any};
ghost use Rattle.rb_syntax.specs.Plain.{conversation_declaration, identifier, tree};
ghost use Rattle.rb_meaning.specs.Environment.{same_name};
ghost use Rattle.rb_meaning.specs.Groups.{process_number};
ghost use Rattle.rb_meaning.specs.Nesting.{is_member};
ghost use Rattle.rb_scope.specs.Finding.{first_after};
ghost use Rattle.rb_nest.specs.Rules.{conversation_faults, members_faults};
ghost use Rattle.rb_uses.specs.Members.{known, known_from, known_of, member_faults, with_members};

use crate::uses::Uses;
use rb_base::{FaultName, Memory, SourceFault};
use rb_meaning::numbers::process_number;
use rb_nest::found::note;
use rb_syntax::{Conversation, Name, Program};
use std::alloc::Global;

/// What the rules ask of a conversation: its members, each once, the conversation right around it, and its number of
/// alternates if it is joined.
pub struct Facts {
    pub members: Vec<usize>,
    pub parent: Option<usize>,
    pub alternates: Option<usize>,
}

impl Drop for Facts {
    fn drop(self) {
        let Facts {
            members: _,
            parent: _,
            alternates: _,
        } = self;
    }
}

/// What the rules ask of all conversations. Notes the faults of their declarations.
pub fn facts_of_conversations(
    alloc: Global,
    uses: &Uses<'_, '_>,
    first: &mut Option<SourceFault>,
) -> Result<Vec<Facts>, Memory>
    ensures facts { IfOk result
        (λ facts. map known facts.items ≡ known_from (tree uses.now.program.now) 0 (tree uses.now.program.now).conversations) }
    ensures found { OnOk result
        (first.new ≡ first_after first.old
        (flat_map (conversation_faults (tree uses.now.program.now)) (tree uses.now.program.now).conversations)) }
{
    let mut all = Vec::new(alloc);
    for (number, conversation) in uses.program.conversations.iter().enumerate() {
        note_conversation(uses, conversation, first);
        all.push(facts_of(alloc, uses, number, conversation)?)?;
    }
    Ok(all)
}

fn facts_of(
    alloc: Global,
    uses: &Uses<'_, '_>,
    number: usize,
    conversation: &Conversation<'_>,
) -> Result<Facts, Memory>
    ensures { IfOk result (λ facts. known facts ≡ known_of (tree uses.now.program.now) number (conversation_declaration conversation.now)) }
{
    let parent = uses.parent(conversation.name.text);
    let alternates = uses.alternates(number);
    let members = members_once(alloc, uses.program, &conversation.members)?;
    Ok(Facts {
        members,
        parent,
        alternates,
    })
}

/// The numbers of processes, each once, however often they are named.
fn members_once(
    alloc: Global,
    program: &Program<'_>,
    names: &[Name<'_>],
) -> Result<Vec<usize>, Memory>
    ensures { IfOk result
        (λ members. members.items ≡ with_members [] (map (λ name. process_number (tree program.now) name.text) (map identifier names.now))) }
{
    let mut members = Vec::new(alloc);
    let mut rest = names;
    'names: while let [name, after @ ..] = rest {
        let number = process_number(program, name.text);
        if !is_member(number, &members) {
            members.push(number)?;
        }
        rest = after;
    }
    Ok(members)
}

/// Whether a process is one of these members.
pub(crate) fn is_member(process: usize, members: &[usize]) -> bool
    ensures { result ≡ is_member process members.now }
{
    members.contains(&process)
}

/// Notes the faults of the declaration of a conversation.
fn note_conversation(
    uses: &Uses<'_, '_>,
    conversation: &Conversation<'_>,
    first: &mut Option<SourceFault>,
)
    ensures { first.new ≡ first_after first.old (conversation_faults (tree uses.now.program.now) (conversation_declaration conversation.now)) }
{
    let few = conversation.members.len() < 2;
    note(first, few, FaultName::N11, conversation.name.place);
    note_members(uses, conversation.name.text, &conversation.members, first);
}

/// Notes each member that is named again, and each that never joins the conversation.
fn note_members(
    uses: &Uses<'_, '_>,
    conversation: &[u8],
    members: &[Name<'_>],
    first: &mut Option<SourceFault>,
)
    ensures { first.new ≡ first_after first.old (members_faults (tree uses.now.program.now) conversation.now [] (map identifier members.now)) }
{
    for (index, name) in members.iter().enumerate() {
        note_member(uses, conversation, &members[..index], *name, first);
    }
}

fn note_member(
    uses: &Uses<'_, '_>,
    conversation: &[u8],
    earlier: &[Name<'_>],
    name: Name<'_>,
    first: &mut Option<SourceFault>,
)
    ensures { first.new ≡ first_after first.old (member_faults (tree uses.now.program.now) conversation.now (reverse earlier.now) name.entry) }
{
    if is_named(earlier, name.text) {
        note(first, true, FaultName::N11, name.place);
    } else {
        let process = process_number(uses.program, name.text);
        let absent = !uses.is_joined(process, conversation);
        note(first, absent, FaultName::N6, name.place);
    }
}

/// Whether one of these names has this text.
fn is_named(names: &[Name<'_>], text: &[u8]) -> bool
    ensures { result ≡ list_any (λ name. same_name name.text.now text.now) (reverse names.now) }
{
    // The last one is found at once, however many there are.
    let mut rest = names;
    'names: while let [before @ .., name] = rest {
        if name.text == text {
            return true;
        }
        rest = before;
    }
    false
}
