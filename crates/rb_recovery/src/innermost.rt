//! The innermost level of a process, and the alternate at which its next step is taken.

ghost use Rattle.std.specs.Prelude.{◌≡◌};
ghost use Rattle.rb_world.specs.World.{last_of};
ghost use Rattle.rb_proc.specs.Given.{alternate_by};
ghost use Rattle.rb_recovery.specs.Innermost.{IsInnermost, tried_by};

use rb_proc::{LevelView, Proc, Wanted};
use std::sync::ledger::Ledger;

/// The innermost level, if one is open.
pub fn innermost<L: Ledger>(proc: &Proc<L>) -> Option<LevelView>
    ensures { IsInnermost (last_of proc.now.process.levels) result }
{
    let levels = proc.levels();
    if levels == 0 {
        return None;
    }
    Some(proc.level(levels - 1))
}

/// The alternate that the next step of a process starts, by what it wants: that of its innermost level; and 0 where it starts none.
pub fn started<L: Ledger>(wanted: Wanted, proc: &Proc<L>) -> u32
    ensures { result ≡ alternate_by wanted proc.now.process.levels }
{
    match wanted {
        Wanted::Start => tried(innermost(proc)),
        _ => 0,
    }
}

// The alternate that a level tries, and 0 without a level.
fn tried(level: Option<LevelView>) -> u32
    ensures { result ≡ tried_by level }
{
    match level {
        None => 0,
        Some(view) => view.alternate,
    }
}
