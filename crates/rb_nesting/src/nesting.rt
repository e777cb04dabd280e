//! From the uses of a program to its conversations, or to its first fault of nesting.

ghost use Rattle.std.specs.Prelude.{◌≡◌, ℕ, [], None, slice_get, map, Some, IfOk, IfErr, MatchResult};
ghost use Rattle.rb_syntax.specs.Plain.{conversation_declaration, identifier, tree};
ghost use Rattle.rb_meaning.specs.Groups.{groups_of, membership_of, process_number};
ghost use Rattle.rb_meaning.specs.Nesting.{alternates_of};
ghost use Rattle.rb_scope.specs.FirstFault.{IsFirstOf};
ghost use Rattle.rb_scope.specs.Limits.{HasDistinctNames};
ghost use Rattle.rb_scope.specs.Resolved.{IsResolved};
ghost use Rattle.rb_scope.specs.Finding.{first_after};
ghost use Rattle.rb_nest.specs.Groups.{alternates, membership, memberships};
ghost use Rattle.rb_nest.specs.Nest.{IsNest, IsNumber, IsRefused};
ghost use Rattle.rb_nest.specs.Rules.{nesting_faults};

use rb_base::{Group, Memory, Nested, Refusal, SourceFault};
use rb_meaning::numbers::process_number;
use rb_scope::Checked;
use rb_syntax::{Conversation, Name, Program};
use rb_uses::{Rules, Uses, ends_of_channels, facts_of_conversations};
use std::alloc::Global;

/// The conversations of a program whose names are resolved: members, parents and numbers of alternates; or the first fault of
/// nesting, N1 to N13. Counts that a number of 32 bits can't hold are want of memory.
pub fn nest(alloc: Global, checked: &Checked<'_>) -> Result<Nested, Refusal>
    requires { IsResolved (tree checked.now.program) checked.now.slots.items }
    ensures nested { IfOk result (λ nested. IsNest (tree checked.now.program) nested) }
    ensures refused { IfErr result (IsRefused (tree checked.now.program)) }
{
    match judge(alloc, &checked.program) {
        Ok(Ok(nested)) => Ok(nested),
        Ok(Err(fault)) => Err(Refusal::Fault(fault)),
        Err(Memory) => Err(Refusal::Memory),
    }
}

/// The conversations of a program, or its first fault of nesting.
fn judge(alloc: Global, program: &Program<'_>) -> Result<Result<Nested, SourceFault>, Memory>
    requires { HasDistinctNames (tree program.now) }
    ensures { IfOk result (λ judged. MatchResult judged (IsNest (tree program.now)) (IsFirstOf (nesting_faults (tree program.now)))) }
{
    let uses = Uses::new(alloc, program)?;
    match first_fault(alloc, &uses)? {
        Some(fault) => Ok(Err(fault)),
        None => Ok(Ok(nested(alloc, &uses)?)),
    }
}

/// The first fault of nesting, if there is one.
fn first_fault(alloc: Global, uses: &Uses<'_, '_>) -> Result<Option<SourceFault>, Memory>
    ensures { IfOk result (λ first. first ≡ first_after None (nesting_faults (tree uses.now.program.now))) }
{
    let mut first = None;
    let channels = ends_of_channels(alloc, uses.program, &mut first)?;
    let conversations = facts_of_conversations(alloc, uses, &mut first)?;
    let rules = Rules {
        uses,
        channels,
        conversations,
    };
    rules.note_uses(alloc, &mut first)?;
    Ok(first)
}

/// The conversations, each of which is joined somewhere.
fn nested(alloc: Global, uses: &Uses<'_, '_>) -> Result<Nested, Memory>
    requires no_fault { nesting_faults (tree uses.now.program.now) ≡ [] }
    requires distinct { HasDistinctNames (tree uses.now.program.now) }
    ensures groups { IfOk result (λ nested. memberships nested ≡ groups_of (tree uses.now.program.now)) }
    ensures counts { IfOk result
        (λ nested. (c n : ℕ) → slice_get (alternates nested) c ≡ Some n → alternates_of (tree uses.now.program.now) c ≡ Some n) }
{
    let mut conversations = Vec::new(alloc);
    for (number, conversation) in uses.program.conversations.iter().enumerate() {
        conversations.push(group(alloc, uses, number, conversation)?)?;
    }
    small(conversations.len())?;
    Ok(Nested { conversations })
}

fn group(
    alloc: Global,
    uses: &Uses<'_, '_>,
    number: usize,
    conversation: &Conversation<'_>,
) -> Result<Group, Memory>
    requires { IsNumber (alternates_of (tree uses.now.program.now) number) }
    ensures membership { IfOk result
        (λ group. membership group ≡ membership_of (tree uses.now.program.now) (conversation_declaration conversation.now)) }
    ensures alternates { IfOk result (λ group. alternates_of (tree uses.now.program.now) number ≡ Some group.alternates) }
{
    let members = numbers(alloc, uses.program, &conversation.members)?;
    let parent = match uses.parent(conversation.name.text) {
        None => None,
        Some(parent) => Some(small(parent)?),
    };
    let alternates = small(uses.alternates(number).unwrap())?;
    Ok(Group {
        members,
        parent,
        alternates,
    })
}

/// The numbers of processes by their names.
fn numbers(alloc: Global, program: &Program<'_>, names: &[Name<'_>]) -> Result<Vec<u32>, Memory>
    ensures { IfOk result (λ numbers. numbers.items ≡ map (λ name. process_number (tree program.now) name.text) (map identifier names.now)) }
{
    let mut numbers = Vec::with_capacity(alloc, names.len())?;
    let mut rest = names;
    'names: while let [name, after @ ..] = rest {
        numbers.push(small(process_number(program, name.text))?)?;
        rest = after;
    }
    Ok(numbers)
}

/// A count, as long as 32 bits can hold it.
fn small(count: usize) -> Result<u32, Memory>
    ensures { IfOk result (λ number. number ≡ count) }
{
    u32::try_from(count).map_err(|_| Memory)
}
