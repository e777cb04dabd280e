//! From which number on a receiver leaves room to a sender.

ghost use Rattle.std.specs.Prelude.{◌≡◌, map, slice_get};
ghost use Rattle.std.specs.Option.{unwrap_or};
ghost use Rattle.rb_syntax.specs.Tree.{Tree};
ghost use Rattle.rb_world.specs.Channels.{room_from};
ghost use Rattle.rb_levels.specs.Worlds.{level_of, unkept_kind};
ghost use Rattle.rb_walk.specs.States.{state_of};

use crate::process::Process;

/// The number taken that room is counted from: at the entry of the outermost level, or the present one.
pub fn room_from(receiver: &Process<'_, '_>, channel: usize) -> usize
    ensures { (tree : Tree) → result ≡ room_from (unkept_kind tree) (state_of receiver.now.state) (map level_of receiver.now.levels.items) channel }
{
    match receiver.levels.first() {
        Some(level) => count_at(&level.taken, channel),
        None => receiver.state.taken_on(channel),
    }
}

/// One of the counts that stood at a level's entry.
pub fn count_at(counts: &[usize], channel: usize) -> usize
    ensures { result ≡ unwrap_or (slice_get counts.now channel) 0 }
{
    counts.get(channel).copied().unwrap_or(0)
}
