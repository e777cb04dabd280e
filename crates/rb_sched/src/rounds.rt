//! The turns that a line still gives, held as numbers, so that no list of them takes memory.

ghost use Rattle.std.specs.Prelude.{◌≡◌, ℕ, ◌-◌, ◌<◌, ◌≤◌, ◌^◌, ◌↔◌, List, [], length, replicate, IsTrue};
ghost use Rattle.rb_sched.specs.Schedule.{rounds};
ghost use Rattle.rb_sched.specs.Rounds.{turns_left, AreRounds, TakesFirst};

use rb_base::MOST_TURNS;
use std::marker::Model;

/// The turns that a line still gives: rounds, each one turn of every process from `first` up to `end`.
/// Contracts see the list of the turns.
#[derive(Drop)]
pub(crate) struct Rounds {
    first: u32,
    end: u32,
    next: u32,
    left: u32,
}

impl Model for Rounds {
    ghost Value = { List ℕ };

    ghost view = { λ r. turns_left r.first r.end r.next r.left };

    ghost invariant = { λ r. AreRounds r.first r.end r.next r.left };
}

impl Rounds {
    /// No turns.
    pub(crate) fn none() -> Self
        ensures { result ≡ [] }
    {
        Rounds {
            first: 0,
            end: 0,
            next: 0,
            left: 0,
        }
    }

    /// So many turns of one process.
    #[tactic(auto, using(crate::proofs::TurnsLeft::turns_left_one))]
    pub(crate) fn of_one(process: u32, count: u32) -> Self
        requires known { process < 2 ^ 32 - 1 }
        requires few { count ≤ MOST_TURNS }
        ensures { result ≡ replicate count process }
    {
        Rounds {
            first: process,
            end: process + 1,
            next: process,
            left: count,
        }
    }

    /// So many rounds of all processes.
    #[tactic(auto, using(crate::proofs::TurnsLeft::turns_left_all, crate::proofs::TurnsLeft::rounds_none))]
    pub(crate) fn of_all(processes: u32, count: u32) -> Self
        requires { count ≤ MOST_TURNS }
        ensures { result ≡ rounds processes count }
    {
        if processes == 0 {
            return Rounds::none();
        }
        Rounds {
            first: 0,
            end: processes,
            next: 0,
            left: count,
        }
    }

    /// Whether no turn is left.
    #[tactic(auto, using(crate::proofs::TurnsLeft::turns_left_none, crate::proofs::TurnsLeft::turns_left_some))]
    pub(crate) fn is_empty(&self) -> bool
        ensures { IsTrue result ↔ (self.now ≡ []) }
    {
        self.left == 0
    }

    /// How many turns are left.
    #[tactic(auto, using(crate::proofs::TurnsLeft::length_turns_left))]
    pub(crate) fn len(&self) -> u64
        ensures turns { result ≡ length self.now }
        ensures few { result ≤ 2 ^ 52 }
    {
        if self.left == 0 {
            return 0;
        }
        u64::from(self.end - self.next)
            + u64::from(self.left - 1) * u64::from(self.end - self.first)
    }

    /// The process of the next turn, or `None` where none is left.
    #[tactic(auto, using(crate::proofs::TurnsLeft::turns_left_inside, crate::proofs::TurnsLeft::turns_left_last))]
    pub(crate) fn next(&mut self) -> Option<u32>
        ensures { TakesFirst self.old result self.new }
    {
        if self.left == 0 {
            return None;
        }
        let process = self.next;
        self.next += 1;
        if self.next == self.end {
            self.next = self.first;
            self.left -= 1;
        }
        Some(process)
    }
}
