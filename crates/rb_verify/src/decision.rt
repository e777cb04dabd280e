//! Whether code is sound.

ghost use Rattle.std.specs.Prelude.{◌≡◌, ◌≤◌, length, map, IfOk, IfErr};
ghost use Rattle.rb_code.specs.Instructions.Plain.{code as plain};
ghost use Rattle.rb_code.specs.SoundCode.WellFormed.{IsSound, IsWellFormed};
ghost use Rattle.rb_conv.specs.Conversations.{Conversation, memberships, opening};
ghost use Rattle.rb_flow.specs.Ends.{AreEnds};
ghost use Rattle.rb_search.specs.Found.{found, IfUnsound};
ghost use Rattle.rb_search.specs.Search.{IsFound};
ghost use Rattle.rb_flow.specs.declared.ends.TheConstants.{MOST_INSTRUCTIONS};

use rb_base::Nested;
use rb_code::Code;
use rb_flow::ends::{Ends, all_ends};
use rb_search::joining::{joinings, members_join_once};
use rb_search::refusal::Refusal;
use rb_search::search::{Known, find_table};
use rb_search::staying::loops_stay_open;
use std::alloc::Global;

/// Decides whether code is sound with its conversations, where its lists are well formed. `Unsound` says that it is not.
///
/// `Memory` is answered for want of memory, and so that no code is costly: where more than 16,777,216 operands, open blocks or contexts are
/// kept, those of lists with the same ones below counted once; for words that 64 bits do not count; and for code of more than 4,294,967,295
/// instructions. Other code may be sound then, but none that a source compiles to comes near.
pub fn verify(alloc: Global, code: &Code, nested: &Nested) -> Result<(), Refusal>
    requires well { IsWellFormed (plain code.now) (memberships (opening nested.now)) }
    ensures sound { IfOk result (λ _. IsSound (plain code.now) (memberships (opening nested.now))
        (map (λ (one : Conversation). one.alternates) (opening nested.now))) }
    ensures unsound { IfErr result (λ r. IfUnsound r (IsSound (plain code.now) (memberships (opening nested.now))
        (map (λ (one : Conversation). one.alternates) (opening nested.now)) → ⊥)) }
{
    let ends = match all_ends(alloc, code) {
        Err(_) => return Err(Refusal::Memory),
        Ok(ends) => ends,
    };
    match find_table(alloc, code, nested, &ends) {
        Err(refused) => Err(refused),
        Ok(known) => judge(alloc, code, nested, &ends, &known),
    }
}

// Whether loops stay open in the found table, and members join their conversations once.
fn judge(
    alloc: Global,
    code: &Code,
    nested: &Nested,
    ends: &Ends,
    known: &Known,
) -> Result<(), Refusal>
    requires well { IsWellFormed (plain code.now) (memberships (opening nested.now)) }
    requires ends { AreEnds (plain code.now) ends.now }
    requires few { length code.now.instrs.items ≤ MOST_INSTRUCTIONS }
    requires size { length known.now.cells ≡ length code.now.instrs.items }
    requires found { IsFound (plain code.now) (memberships (opening nested.now)) (found known.now.lists known.now.cells) }
    ensures sound { IfOk result (λ _. IsSound (plain code.now) (memberships (opening nested.now))
        (map (λ (one : Conversation). one.alternates) (opening nested.now))) }
    ensures unsound { IfErr result (λ r. IfUnsound r (IsSound (plain code.now) (memberships (opening nested.now))
        (map (λ (one : Conversation). one.alternates) (opening nested.now)) → ⊥)) }
{
    if !loops_stay_open(code, nested, ends, &known.lists, &known.cells) {
        return Err(Refusal::Unsound);
    }
    match joinings(alloc, code, &known.lists, &known.cells) {
        Err(_) => Err(Refusal::Memory),
        Ok(each) => match each {
            None => Err(Refusal::Unsound),
            Some(all) => {
                if members_join_once(nested, &all) {
                    Ok(())
                } else {
                    Err(Refusal::Unsound)
                }
            }
        },
    }
}
