//! The tests of rules.

ghost use Rattle.std.specs.Prelude.{◌≡◌, ◌<◌, ◌+◌, ◌&&◌, nat_lt, [], length, get_or, slice_get, Option, Some, None};
ghost use Rattle.rb_code.specs.Instructions.Plain.{code as plain};
ghost use Rattle.rb_conv.specs.Conversations.{memberships, opening};
ghost use Rattle.rb_world.specs.Turn.{members_of};
ghost use Rattle.rb_world.specs.Reject.{parent_of};
ghost use Rattle.rb_code.specs.WordMachine.Workspace.{part_of};
ghost use Rattle.rb_code.specs.SoundCode.Sound.{conversation_of, freed as made_free};
ghost use Rattle.rb_entries.specs.Parts.{loop_of, loops_of, mode_of, within_of};
ghost use Rattle.rb_flow.specs.Flow.{below_in_range as is_below_in_range, in_range as is_in_range, is_above as is_over, is_ahead as leads_ahead, is_among as is_one_of, in_main, is_entered as was_entered, is_fresh as stands_fresh, is_loop as is_that_loop, is_this_loop, is_none as has_none, is_receiver as receives, is_sender as sends, is_set as counts, is_turn as is_a_turn, lies_in, may_enter as can_enter, may_frame as can_frame, may_put as can_put, may_take as can_take, may_trap as can_trap, no_blocks as has_no_blocks, no_loops as has_no_loops, prior_in_range as is_prior_in_range, restarts_at as has_restart};

use crate::blocks::Blocks;
use crate::stacks::Stacks;
use rb_base::Nested;
use rb_code::{Code, Instr, Spot};
use rb_entries::entry::{Loop, Loops, Mode, Within};

pub fn may_trap(mode: Mode) -> bool
    ensures { result ≡ can_trap (mode_of mode) }
{
    match mode {
        Mode::Begun => false,
        Mode::Changed => false,
        _ => true,
    }
}

pub fn may_frame(mode: Mode) -> bool
    ensures { result ≡ can_frame (mode_of mode) }
{
    match mode {
        Mode::Changed => false,
        _ => true,
    }
}

pub fn is_fresh(mode: Mode) -> bool
    ensures { result ≡ stands_fresh (mode_of mode) }
{
    match mode {
        Mode::Fresh => true,
        _ => false,
    }
}

pub fn may_put(channel: u32, mode: Mode) -> bool
    ensures { result ≡ can_put channel (mode_of mode) }
{
    match mode {
        Mode::MayPut(d) => d == channel,
        _ => false,
    }
}

pub fn may_take(channel: u32, mode: Mode) -> bool
    ensures { result ≡ can_take channel (mode_of mode) }
{
    match mode {
        Mode::MayTake(d) => d == channel,
        _ => false,
    }
}

/// What leaves the memory as it is makes fresh into free.
pub fn freed(mode: Mode) -> Mode
    ensures { mode_of result ≡ made_free (mode_of mode) }
{
    match mode {
        Mode::Fresh => Mode::Free,
        other => other,
    }
}

pub fn in_range(globals: u32, words: u64, spot: Spot, n: u32) -> bool
    ensures { result ≡ is_in_range globals words spot n }
{
    match spot {
        Spot::Global(k) => u64::from(k) + u64::from(n) <= u64::from(globals),
        Spot::Local(k) => u64::from(k) + u64::from(n) <= words,
    }
}

pub fn below_in_range(globals: u32, words: u64, spot: Spot, bound: Option<u32>) -> bool
    ensures { result ≡ is_below_in_range globals words spot bound }
{
    match bound {
        None => false,
        Some(n) => in_range(globals, words, spot, n),
    }
}

pub fn prior_in_range(
    globals: u32,
    blocks: &Blocks,
    at: u32,
    spot: Spot,
    bound: Option<u32>,
) -> bool
    requires at { at < length blocks.now }
    ensures { result ≡ is_prior_in_range globals (get_or blocks.now at []) spot bound }
{
    match blocks.top(at) {
        None => false,
        Some(block) => below_in_range(globals, block.top.words, spot, bound),
    }
}

pub fn is_none(operands: &Stacks, at: u32) -> bool
    requires at { at < length operands.now }
    ensures { result ≡ has_none (get_or operands.now at []) }
{
    match operands.top(at) {
        None => true,
        Some(_) => false,
    }
}

pub fn no_blocks(blocks: &Blocks, at: u32) -> bool
    requires at { at < length blocks.now }
    ensures { result ≡ has_no_blocks (get_or blocks.now at []) }
{
    match blocks.top(at) {
        None => true,
        Some(_) => false,
    }
}

pub fn is_above(blocks: &Blocks, at: u32, words: u64) -> bool
    requires at { at < length blocks.now }
    ensures { result ≡ is_over (get_or blocks.now at []) words }
{
    match blocks.top(at) {
        None => true,
        Some(block) => block.top.words <= words,
    }
}

pub fn is_entered(blocks: &Blocks, at: u32, number: u32, words: u64) -> bool
    requires at { at < length blocks.now }
    ensures { result ≡ was_entered number words (get_or blocks.now at []) }
{
    match blocks.top(at) {
        None => false,
        Some(block) => block.top.number == number && block.top.words == words,
    }
}

pub fn no_loops(loops: Loops) -> bool
    ensures { result ≡ has_no_loops (loops_of loops) }
{
    match loops {
        Loops::Zero => true,
        _ => false,
    }
}

fn is_it(loop_here: Loop, counter: u32, first: u32, last: u32) -> bool
    ensures { result ≡ is_this_loop counter first last (loop_of loop_here) }
{
    loop_here.counter == counter && loop_here.first == first && loop_here.last == last
}

pub fn is_loop(counter: u32, first: u32, last: u32, loops: Loops) -> bool
    ensures { result ≡ is_that_loop counter first last (loops_of loops) }
{
    match loops {
        Loops::Zero => false,
        Loops::One(x) => is_it(x, counter, first, last),
        Loops::Two(x, y) => { is_it(x, counter, first, last) || is_it(y, counter, first, last) }
    }
}

pub fn is_set(counter: u32, loops: Loops) -> bool
    ensures { result ≡ counts counter (loops_of loops) }
{
    match loops {
        Loops::Zero => false,
        Loops::One(x) => x.counter == counter,
        Loops::Two(x, y) => x.counter == counter || y.counter == counter,
    }
}

pub fn is_turn(instrs: &[Instr], at: u32) -> bool
    ensures { result ≡ is_a_turn (slice_get instrs.now at) }
{
    match instrs.get(at as usize) {
        None => false,
        Some(instr) => match *instr {
            Instr::Turn => true,
            _ => false,
        },
    }
}

pub fn is_ahead(code: &Code, at: u32, b: u32) -> bool
    ensures { result ≡ leads_ahead (plain code.now) at b }
{
    at < b || is_turn(&code.instrs, b)
}

pub fn words_of(code: &Code, process: u32) -> u32
    ensures { result ≡ (part_of (plain code.now) process).words }
{
    match code.processes.get(process as usize) {
        None => 0,
        Some(one) => one.words,
    }
}

pub fn is_sender(code: &Code, channel: u32, process: u32) -> bool
    ensures { result ≡ sends (slice_get (plain code.now).channels channel) process }
{
    match code.channels.get(channel as usize) {
        None => false,
        Some(ends) => ends.sender == process,
    }
}

pub fn is_receiver(code: &Code, channel: u32, process: u32) -> bool
    ensures { result ≡ receives (slice_get (plain code.now).channels channel) process }
{
    match code.channels.get(channel as usize) {
        None => false,
        Some(ends) => ends.receiver == process,
    }
}

pub fn restarts_at(code: &Code, block: u32, at: u32) -> bool
    ensures { result ≡ has_restart (slice_get (plain code.now).blocks block) at }
{
    match code.blocks.get(block as usize) {
        None => false,
        Some(one) => one.restart == at,
    }
}

pub fn is_main(within: Within) -> bool
    ensures { result ≡ in_main within.procedure }
{
    match within.procedure {
        None => true,
        Some(_) => false,
    }
}

/// A text is there.
pub fn is_text(code: &Code, k: u32) -> bool
    ensures { result ≡ nat_lt k (length (plain code.now).texts) }
{
    (k as usize) < code.texts.len()
}

/// A number is one of a list.
pub fn is_among(list: &[u32], a: u32) -> bool
    ensures { result ≡ is_one_of list.now a }
{
    for x in list {
        if *x == a {
            return true;
        }
    }
    false
}

/// The conversation of a block.
pub fn conversation_in(code: &Code, block: u32) -> Option<u32>
    ensures { result ≡ conversation_of (slice_get (plain code.now).blocks block) }
{
    match code.blocks.get(block as usize) {
        None => None,
        Some(one) => one.conversation,
    }
}

/// A process is a member of a conversation.
#[tactic(auto, using(crate::proofs::Members::members_found, crate::proofs::Members::members_missing))]
fn is_member(nested: &Nested, conversation: u32, process: u32) -> bool
    ensures { result ≡ is_one_of (members_of (slice_get (memberships (opening nested.now)) conversation)) process }
{
    match nested.conversations.get(conversation as usize) {
        None => false,
        Some(group) => is_among(&group.members, process),
    }
}

/// The conversation around a conversation.
#[tactic(auto, using(crate::proofs::Members::parent_found, crate::proofs::Members::parent_missing))]
fn parent(nested: &Nested, conversation: u32) -> Option<u32>
    ensures { result ≡ parent_of (slice_get (memberships (opening nested.now)) conversation) }
{
    match nested.conversations.get(conversation as usize) {
        None => None,
        Some(group) => group.parent,
    }
}

/// The innermost block is one of a conversation, or there is none.
fn is_inside_of(code: &Code, blocks: &Blocks, at: u32, around: Option<u32>) -> bool
    requires at { at < length blocks.now }
    ensures { result ≡ lies_in (plain code.now) around (get_or blocks.now at []) }
{
    match around {
        None => no_blocks(blocks, at),
        Some(wanted) => match blocks.top(at) {
            None => false,
            Some(block) => match conversation_in(code, block.top.number) {
                None => false,
                Some(conversation) => conversation == wanted,
            },
        },
    }
}

/// A block of a conversation may be entered here.
pub fn may_enter(
    code: &Code,
    nested: &Nested,
    blocks: &Blocks,
    at: u32,
    conversation: Option<u32>,
    within: Within,
) -> bool
    requires at { at < length blocks.now }
    ensures { result ≡ can_enter (plain code.now) (memberships (opening nested.now)) conversation (within_of within) (get_or blocks.now at []) }
{
    match conversation {
        None => true,
        Some(d) => is_main(within)
            && is_member(nested, d, within.process)
            && is_inside_of(code, blocks, at, parent(nested, d)),
    }
}
