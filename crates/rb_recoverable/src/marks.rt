//! What is looked up in the marks of open levels, and how they count turns and alternates.

ghost use Rattle.std.specs.Prelude.{◌≡◌, ◌+◌, ◌-◌, ◌<◌, ◌≤◌, ◌^◌, length, map, position, IfSome};
ghost use Rattle.rb_world.specs.World.{last_of};
ghost use Rattle.rb_recoverable.specs.Contents.{facts_of};
ghost use Rattle.rb_recoverable.specs.Marks.{earlier, is_last_mark_in, is_mark_in, is_mark_over, mark_used};
ghost use Rattle.rb_recoverable.specs.Views.{facts_seen};

use crate::level_view::LevelView;
use crate::recoverable::LevelMark;

/// A level as callers see it.
pub fn view_of(mark: LevelMark, clock: u32) -> LevelView
    ensures facts { facts_seen result ≡ facts_of mark.facts }
    ensures alternate { result.alternate ≡ mark.alternate }
    ensures used { result.used ≡ mark_used clock mark }
{
    LevelView {
        block: mark.facts.number,
        line: mark.facts.line,
        conversation: mark.facts.conversation,
        bound: mark.facts.bound,
        alternates: mark.facts.alternates,
        alternate: mark.alternate,
        used: used(&mark, clock),
    }
}

/// A level that goes on to its next alternate, with no turns used.
pub fn next_mark(mark: LevelMark, clock: u32) -> LevelMark
    requires { mark.alternate < 2 ^ 32 - 1 }
    ensures { result ≡ record mark { alternate = mark.alternate + 1; since = clock } }
{
    LevelMark {
        alternate: mark.alternate + 1,
        since: clock,
        ..mark
    }
}

// Whether a level is one of a conversation.
fn is_in(mark: &LevelMark, conversation: u32) -> bool
    ensures { result ≡ is_mark_in conversation mark.now }
{
    match mark.facts.conversation {
        None => false,
        Some(other) => other == conversation,
    }
}

/// The first level of a conversation, from the outside in.
pub fn place_in(marks: &[LevelMark], conversation: u32) -> Option<u32>
    requires { length marks.now < 2 ^ 32 }
    ensures { result ≡ position (is_mark_in conversation) marks.now }
{
    let place = first_in(marks, conversation)?;
    Some(place as u32)
}

// The same, as an index.
fn first_in(marks: &[LevelMark], conversation: u32) -> Option<usize>
    ensures place { result ≡ position (is_mark_in conversation) marks.now }
    ensures within { IfSome result (λ place. place < length marks.now) }
{
    marks.iter().position(|mark| is_in(mark, conversation))
}

/// Whether the innermost level is one of a conversation.
pub fn is_last_in(marks: &[LevelMark], conversation: u32) -> bool
    ensures { result ≡ is_last_mark_in conversation (last_of marks.now) }
{
    match marks.last() {
        Some(mark) => is_in(mark, conversation),
        None => false,
    }
}

// The turns that a level has used; no mark begins later than the clock stands.
fn used(mark: &LevelMark, clock: u32) -> u32
    ensures { result ≡ mark_used clock mark.now }
{
    clock.saturating_sub(mark.since)
}

// Whether a level has used more turns than its bound.
fn is_over(mark: &LevelMark, clock: u32) -> bool
    ensures { result ≡ is_mark_over clock mark.now }
{
    mark.facts.bound < used(mark, clock)
}

/// The first level, from the outside in, that is over its bound.
pub fn first_over(marks: &[LevelMark], clock: u32) -> Option<u32>
    requires { length marks.now < 2 ^ 32 }
    ensures { result ≡ position (is_mark_over clock) marks.now }
{
    let place = first_beyond(marks, clock)?;
    Some(place as u32)
}

// The same, as an index.
fn first_beyond(marks: &[LevelMark], clock: u32) -> Option<usize>
    ensures place { result ≡ position (is_mark_over clock) marks.now }
    ensures within { IfSome result (λ place. place < length marks.now) }
{
    marks.iter().position(|mark| is_over(mark, clock))
}

/// The deadline of a level and of those around it: theirs, or its own where that is sooner, which lies its bound behind its beginning.
#[inline(always)]
pub fn sooner(outer: u32, since: u32, bound: u32) -> u32
    ensures outer { result ≤ outer }
    ensures own { result ≤ since + bound }
{
    outer.min(since.saturating_add(bound))
}

/// Each level began one turn earlier, and keeps no deadline.
pub fn begin_earlier(marks: &mut [LevelMark])
    ensures { marks.new ≡ map earlier marks.old }
{
    for mark in marks.iter_mut() {
        start_earlier(mark);
    }
}

// A level that did not begin with the clock.
fn start_earlier(mark: &mut LevelMark)
    ensures { mark.new ≡ earlier mark.old }
{
    mark.since = mark.since.saturating_sub(1);
    mark.around = 0;
}
