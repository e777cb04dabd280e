//! Where the instruction at an address leads.

ghost use Rattle.std.specs.Prelude.{◌≡◌, ◌<◌, ◌-◌, [], ◌∷◌, length, slice_get, Option, Some, None, IfOk};
ghost use Rattle.rb_code.specs.Instructions.Plain.{code as plain};
ghost use Rattle.rb_conv.specs.Conversations.{memberships, opening};
ghost use Rattle.rb_flow.specs.Held.{entry_of, operands_of, IsHeld};
ghost use Rattle.rb_flow.specs.Flow.{flow as leads};
ghost use Rattle.rb_flow.specs.Ways.{steps_of, AreHeld};
ghost use Rattle.rb_flow.specs.Flow.{flow_at};
ghost use Rattle.rb_flow.specs.Ways.{IsFlow};
ghost use Rattle.rb_flow.specs.Ends.{AreEnds};
ghost use Rattle.rb_flow.specs.Shapes.{IsOfShape};
ghost use Rattle.rb_flow.specs.declared.flow.Shape.TheVariants.{Moves, Operates, Pushes, Takes};
ghost use Rattle.rb_flow.specs.declared.ends.TheConstants.{MOST_INSTRUCTIONS};

use crate::ends::Ends;
use crate::entering::{enter, start, test};
use crate::lists::Lists;
use crate::moving::{
    absent, again, call, done, drop_words, fail, frame, jump, print, returns, room, text, there,
    turn,
};
use crate::operating::{bound, load_at, negated, prior_at, takes_one, takes_two, trapping};
use crate::pushing::{counter, load, prior, pushes, take};
use crate::rules::is_above;
use crate::stacks::Top;
use crate::taking::{item, jump_zero, put_message, range, store, store_at};
use crate::way::Way;
use rb_base::{Memory, Nested};
use rb_code::{Code, Instr};
use rb_entries::entry::Held;

/// Where the instruction at an address leads from an entry.
pub fn flow(
    code: &Code,
    nested: &Nested,
    ends: &Ends,
    lists: &mut Lists,
    at: u32,
    entry: Held,
) -> Result<Way, Memory>
    requires ends { AreEnds (plain code.now) ends.now }
    requires held { IsHeld lists.old entry }
    ensures { IfOk result (λ way. IsFlow (plain code.now) lists.old lists.new way
        (flow_at (plain code.now) (memberships (opening nested.now)) at (entry_of lists.old entry))) }
{
    match instr_at(code, at) {
        None => Ok(Way::Broken),
        Some(instr) => {
            if !is_above(&lists.blocks, entry.blocks, entry.words) {
                return Ok(Way::Broken);
            }
            flow_of(code, nested, ends, lists, at, instr, entry)
        }
    }
}

// The instruction at an address.
fn instr_at(code: &Code, at: u32) -> Option<Instr>
    ensures { slice_get (plain code.now).instrs at ≡ result }
{
    match code.instrs.get(at as usize) {
        None => None,
        Some(instr) => Some(*instr),
    }
}

// What an instruction does with operands. Each function below is called for what is its own.
#[derive(Clone, Copy)]
enum Shape {
    Pushes,
    Operates,
    Takes,
    Enters(u32),
    Moves,
}

fn shape_of(instr: Instr) -> Shape
    ensures { IsOfShape instr result }
{
    match instr {
        Instr::Push(_) => Shape::Pushes,
        Instr::Load(_) => Shape::Pushes,
        Instr::Prior(_) => Shape::Pushes,
        Instr::Take(_) => Shape::Pushes,
        Instr::Counter(_) => Shape::Pushes,
        Instr::Bound(_) => Shape::Operates,
        Instr::LoadAt(_) => Shape::Operates,
        Instr::PriorAt(_) => Shape::Operates,
        Instr::Add => Shape::Operates,
        Instr::Sub => Shape::Operates,
        Instr::Mul => Shape::Operates,
        Instr::Div => Shape::Operates,
        Instr::Rem => Shape::Operates,
        Instr::Eq => Shape::Operates,
        Instr::Ne => Shape::Operates,
        Instr::Lt => Shape::Operates,
        Instr::Le => Shape::Operates,
        Instr::Gt => Shape::Operates,
        Instr::Ge => Shape::Operates,
        Instr::Neg => Shape::Operates,
        Instr::Not => Shape::Operates,
        Instr::Bool => Shape::Operates,
        Instr::Store(_) => Shape::Takes,
        Instr::StoreAt(_) => Shape::Takes,
        Instr::JumpZero(_) => Shape::Takes,
        Instr::Item => Shape::Takes,
        Instr::Put(_) => Shape::Takes,
        Instr::Test(_) => Shape::Takes,
        Instr::Range(_, _) => Shape::Takes,
        Instr::Enter(b) => Shape::Enters(b),
        _ => Shape::Moves,
    }
}

// Where an instruction leads at an address.
#[tactic(auto, using(crate::proofs::Chosen::quiet_call, crate::proofs::Chosen::quiet_flow))]
fn flow_of(
    code: &Code,
    nested: &Nested,
    ends: &Ends,
    lists: &mut Lists,
    at: u32,
    instr: Instr,
    entry: Held,
) -> Result<Way, Memory>
    requires ends { AreEnds (plain code.now) ends.now }
    requires held { IsHeld lists.old entry }
    requires at { at < MOST_INSTRUCTIONS }
    ensures { IfOk result (λ way. IsFlow (plain code.now) lists.old lists.new way
        (leads (plain code.now) (memberships (opening nested.now)) instr at (entry_of lists.old entry))) }
{
    match shape_of(instr) {
        Shape::Pushes => pushing(code, nested, lists, at, instr, entry),
        Shape::Operates => operating(code, nested, lists, at, instr, entry),
        Shape::Takes => match lists.operands.top(entry.operands) {
            None => Ok(lacking(code, nested, lists, at, instr, entry)),
            Some(x) => taking(code, nested, ends, lists, at, instr, entry, x),
        },
        Shape::Enters(b) => enter(code, nested, lists, at, entry, b),
        Shape::Moves => moving(code, nested, ends, lists, at, instr, entry),
    }
}

fn pushing(
    code: &Code,
    nested: &Nested,
    lists: &mut Lists,
    at: u32,
    instr: Instr,
    entry: Held,
) -> Result<Way, Memory>
    requires shape { IsOfShape instr Pushes }
    requires held { IsHeld lists.old entry }
    requires at { at < MOST_INSTRUCTIONS }
    ensures { IfOk result (λ way. IsFlow (plain code.now) lists.old lists.new way
        (leads (plain code.now) (memberships (opening nested.now)) instr at (entry_of lists.old entry))) }
{
    match instr {
        Instr::Push(_) => pushes(code, lists, at, entry),
        Instr::Load(v) => load(code, nested, lists, at, entry, v),
        Instr::Prior(v) => prior(code, nested, lists, at, entry, v),
        Instr::Counter(k) => counter(code, nested, lists, at, entry, k),
        Instr::Take(channel) => take(code, nested, lists, at, entry, channel),
        _ => unreachable!(),
    }
}

fn operating(
    code: &Code,
    nested: &Nested,
    lists: &mut Lists,
    at: u32,
    instr: Instr,
    entry: Held,
) -> Result<Way, Memory>
    requires shape { IsOfShape instr Operates }
    requires held { IsHeld lists.old entry }
    requires at { at < MOST_INSTRUCTIONS }
    ensures { IfOk result (λ way. IsFlow (plain code.now) lists.old lists.new way
        (leads (plain code.now) (memberships (opening nested.now)) instr at (entry_of lists.old entry))) }
{
    match instr {
        Instr::Add => trapping(code, nested, lists, at, entry),
        Instr::Sub => trapping(code, nested, lists, at, entry),
        Instr::Mul => trapping(code, nested, lists, at, entry),
        Instr::Div => trapping(code, nested, lists, at, entry),
        Instr::Rem => trapping(code, nested, lists, at, entry),
        Instr::Eq => takes_two(code, lists, at, entry),
        Instr::Ne => takes_two(code, lists, at, entry),
        Instr::Lt => takes_two(code, lists, at, entry),
        Instr::Le => takes_two(code, lists, at, entry),
        Instr::Gt => takes_two(code, lists, at, entry),
        Instr::Ge => takes_two(code, lists, at, entry),
        Instr::Neg => negated(code, nested, lists, at, entry),
        Instr::Not => takes_one(code, lists, at, entry),
        Instr::Bool => takes_one(code, lists, at, entry),
        Instr::Bound(n) => bound(code, nested, lists, at, entry, n),
        Instr::LoadAt(v) => load_at(code, nested, lists, at, entry, v),
        Instr::PriorAt(v) => prior_at(code, nested, lists, at, entry, v),
        _ => unreachable!(),
    }
}

// Where an instruction leads that takes operands, where there are none.
#[tactic(auto, using(crate::proofs::Chosen::when_none))]
fn lacking(code: &Code, nested: &Nested, lists: &Lists, at: u32, instr: Instr, entry: Held) -> Way
    requires shape { IsOfShape instr Takes }
    requires none { operands_of lists.now entry.operands ≡ [] }
    ensures leads { steps_of (plain code.now) lists.now result
        ≡ leads (plain code.now) (memberships (opening nested.now)) instr at (entry_of lists.now entry) }
    ensures held { AreHeld lists.now result }
{
    match instr {
        Instr::Store(_) => Way::Broken,
        Instr::StoreAt(_) => Way::Broken,
        Instr::JumpZero(_) => Way::Broken,
        Instr::Item => Way::Broken,
        Instr::Put(_) => Way::Broken,
        Instr::Test(_) => Way::Broken,
        Instr::Range(_, _) => Way::Broken,
        _ => unreachable!(),
    }
}

fn taking(
    code: &Code,
    nested: &Nested,
    ends: &Ends,
    lists: &Lists,
    at: u32,
    instr: Instr,
    entry: Held,
    x: Top,
) -> Result<Way, Memory>
    requires shape { IsOfShape instr Takes }
    requires ends { AreEnds (plain code.now) ends.now }
    requires held { IsHeld lists.now entry }
    requires top { operands_of lists.now entry.operands ≡ x.top ∷ operands_of lists.now x.below }
    requires below { x.below < length lists.now.operands }
    requires at { at < MOST_INSTRUCTIONS }
    ensures leads { IfOk result (λ way. steps_of (plain code.now) lists.now way
        ≡ leads (plain code.now) (memberships (opening nested.now)) instr at (entry_of lists.now entry)) }
    ensures held { IfOk result (λ way. AreHeld lists.now way) }
{
    match instr {
        Instr::Store(v) => Ok(store(code, nested, lists, at, entry, x, v)),
        Instr::StoreAt(v) => Ok(store_at(code, nested, lists, at, entry, x, v)),
        Instr::JumpZero(b) => Ok(jump_zero(code, nested, lists, at, entry, x, b)),
        Instr::Item => Ok(item(code, nested, lists, at, entry, x)),
        Instr::Put(channel) => Ok(put_message(code, nested, lists, at, entry, x, channel)),
        Instr::Test(b) => Ok(test(code, nested, lists, at, entry, x, b)),
        Instr::Range(k, b) => range(code, nested, ends, lists, at, entry, x, k, b),
        _ => unreachable!(),
    }
}

fn moving(
    code: &Code,
    nested: &Nested,
    ends: &Ends,
    lists: &Lists,
    at: u32,
    instr: Instr,
    entry: Held,
) -> Result<Way, Memory>
    requires shape { IsOfShape instr Moves }
    requires ends { AreEnds (plain code.now) ends.now }
    requires held { IsHeld lists.now entry }
    requires at { at < MOST_INSTRUCTIONS }
    ensures leads { IfOk result (λ way. steps_of (plain code.now) lists.now way
        ≡ leads (plain code.now) (memberships (opening nested.now)) instr at (entry_of lists.now entry)) }
    ensures held { IfOk result (λ way. AreHeld lists.now way) }
{
    match instr {
        Instr::Turn => Ok(turn(code, nested, lists, at, entry)),
        Instr::Jump(b) => Ok(jump(code, nested, lists, at, entry, b)),
        Instr::Frame(n) => frame(code, nested, lists, at, entry, n),
        Instr::Drop(n) => Ok(drop_words(code, nested, lists, at, entry, n)),
        Instr::Text(k) => Ok(text(code, nested, lists, at, entry, k)),
        Instr::Print => Ok(print(code, nested, lists, at, entry)),
        Instr::Room(channel) => Ok(room(code, nested, lists, at, entry, channel)),
        Instr::There(channel) => Ok(there(code, nested, lists, at, entry, channel)),
        Instr::Absent(channel, b) => Ok(absent(code, nested, lists, at, entry, channel, b)),
        Instr::Call(b, p, n) => Ok(call(code, nested, ends, lists, at, entry, b, p, n)),
        Instr::Return => Ok(returns(code, nested, lists, at, entry)),
        Instr::Done => Ok(done(code, nested, lists, at, entry)),
        Instr::Fail => Ok(fail(code, nested, lists, at, entry)),
        Instr::Again(k, b) => Ok(again(code, nested, lists, at, entry, k, b)),
        Instr::Start(b) => Ok(start(code, nested, lists, at, entry, b)),
        _ => unreachable!(),
    }
}
