//! How many words are left behind the frames of an environment.

ghost use Rattle.std.specs.Prelude.{◌≡◌, ◌+◌, length, map, reverse, sum_by};
ghost use Rattle.rb_syntax.specs.Plain.{declaration};
ghost use Rattle.rb_meaning.specs.Environment.{frame_of, frame_words, frames_words};
ghost use Rattle.rb_walk.specs.Slots.{frame, calls_of, left_of};

use crate::frames::{Call, Slot, size_of};
use rb_syntax::{Name, Var};

/// How many words are left of so many behind a frame; none where it has more.
pub fn room_of_frame(slots: &[Slot<'_>], most: usize) -> Option<usize>
    ensures { result ≡ left_of most (frame_words (frame slots.now)) }
{
    let mut left = most;
    for slot in slots {
        let words = slot.values.len();
        if words > left {
            return None;
        }
        left -= words;
    }
    Some(left)
}

/// The same behind the frames of a call.
fn room_of_frames(frames: &[Vec<Slot<'_>>], most: usize) -> Option<usize>
    ensures { result ≡ left_of most (frames_words (reverse (map (λ slots. frame slots.items) frames.now))) }
{
    let mut left = most;
    for slots in frames {
        left = room_of_frame(slots, left)?;
    }
    Some(left)
}

/// The same behind all calls.
pub fn room_of_calls(calls: &[Call<'_>], most: usize) -> Option<usize>
    ensures { result ≡ left_of most (sum_by frames_words (calls_of calls.now)) }
{
    let mut left = most;
    for call in calls {
        left = room_of_frames(&call.frames, left)?;
    }
    Some(left)
}

/// The same behind the variables of these declarations.
pub fn room_of_declared(variables: &[Var<'_>], most: usize) -> Option<usize>
    ensures { result ≡ left_of most (frame_words (frame_of (map declaration variables.now))) }
{
    let mut left = most;
    for variable in variables {
        let words = size_of(variable);
        if words > left {
            return None;
        }
        left -= words;
    }
    Some(left)
}

/// The same behind the parameters of a call and the variables of its block.
pub fn room_of_call(parameters: &[Name<'_>], variables: &[Var<'_>], most: usize) -> Option<usize>
    ensures { result ≡ left_of most (length parameters.now + frame_words (frame_of (map declaration variables.now))) }
{
    room_of_declared(variables, most.checked_sub(parameters.len())?)
}
