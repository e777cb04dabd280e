//! A schedule that is read whole for its faults, and then walked turn by turn.

ghost use Rattle.std.specs.Prelude.{◌≡◌, ℕ, ◌<◌, ◌≤◌, ◌^◌, List, ◌++◌, length, vec_len, Ok, Err, IfOk, MatchResult};
ghost use Rattle.std.specs.List.{AllByRecursion};
ghost use Rattle.rb_base.specs.Naming.{process_names};
ghost use Rattle.rb_sched.specs.Schedule.{Plan, schedule_of, fresh, TakesTurn};
ghost use Rattle.rb_sched.specs.Walk.{turns_in, IsWalk};

use crate::rounds::Rounds;
use crate::turns::{count_turns, first_turns};
use rb_base::{MOST_BYTES, MOST_TURNS, Names, TextFault};
use std::marker::Model;

/// The turns of a schedule that are left. It borrows its text and the names, and takes no memory.
#[derive(Drop)]
pub struct Schedule<'a> {
    // the whole text, which contracts alone speak of
    text: &'a [u8],
    names: &'a Names,
    total: u32,
    // what the present line still gives, and the lines after it
    present: Rounds,
    rest: &'a [u8],
}

impl<'a> Model for Schedule<'a> {
    ghost Value = { Plan };

    ghost view = { λ s. record {
      all = turns_in (schedule_of (process_names s.names.now) s.text.now);
      left = s.present ++ turns_in (schedule_of (process_names s.names.now) s.rest.now);
    } };

    ghost invariant = { λ s. IsWalk s.names.now s.text.now s.total s.rest.now };
}

impl<'a> Schedule<'a> {
    /// Reads a whole schedule, and answers its first fault where it has one.
    pub fn read(text: &'a [u8], names: &'a Names) -> Result<Self, TextFault>
        requires short { length text.now ≤ MOST_BYTES }
        ensures turns { MatchResult result
            (λ schedule. (turns : List ℕ) × (schedule_of (process_names names.now) text.now ≡ Ok turns) × (schedule ≡ fresh turns))
            (λ fault. schedule_of (process_names names.now) text.now ≡ Err fault) }
        ensures known { IfOk result (λ schedule. AllByRecursion (λ p. p < vec_len names.now.processes) schedule.left) }
        ensures few { IfOk result (λ schedule. length schedule.left ≤ MOST_TURNS) }
    {
        let total = count_turns(text, names)?;
        Ok(Schedule {
            text,
            names,
            total,
            present: Rounds::none(),
            rest: text,
        })
    }

    /// The schedule of a text that was read before, by how many turns it was found to have. The text is not read again.
    pub fn counted(text: &'a [u8], names: &'a Names, turns: u32) -> Self
        requires { (all : List ℕ) × (schedule_of (process_names names.now) text.now ≡ Ok all) × (turns ≡ length all) }
        ensures turns { (all : List ℕ) → schedule_of (process_names names.now) text.now ≡ Ok all → result ≡ fresh all }
        ensures known { AllByRecursion (λ p. p < vec_len names.now.processes) result.left }
        ensures few { length result.left ≤ MOST_TURNS }
    {
        Schedule {
            text,
            names,
            total: turns,
            present: Rounds::none(),
            rest: text,
        }
    }

    /// How many turns the whole text has.
    pub fn turns(&self) -> u32
        ensures all { result ≡ length self.now.all }
        ensures few { result ≤ MOST_TURNS }
    {
        self.total
    }

    /// The process of the next turn, or `None` at the end and from then on.
    pub fn next(&mut self) -> Option<u32>
        ensures { TakesTurn self.old result self.new }
    {
        if self.present.is_empty() {
            let (present, rest) = first_turns(self.rest, self.names);
            self.present = present;
            self.rest = rest;
        }
        self.present.next()
    }
}
