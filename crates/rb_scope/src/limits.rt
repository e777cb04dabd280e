//! How many processes a program may have.

ghost use Rattle.std.specs.Prelude.{◌≡◌};
ghost use Rattle.rb_base.specs.Limits.{most_processes};

use rb_base::{Edition, MOST_PROCESSES_FIRST, MOST_PROCESSES_SECOND};

/// How many processes a program of this edition has at most.
pub fn most_processes(edition: Edition) -> usize
    ensures { result ≡ most_processes edition }
{
    match edition {
        Edition::First => MOST_PROCESSES_FIRST,
        Edition::Second => MOST_PROCESSES_SECOND,
    }
}
