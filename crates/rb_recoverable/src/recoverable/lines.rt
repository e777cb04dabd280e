//! The held lines of a process, and the released ones that wait.

ghost use Rattle.std.specs.Prelude.{◌≡◌, ◌+◌, ◌<◌, ◌≤◌, pos, MatchBool, nat_lt, not, cond, [], length, drop, slice_get, slice_set, option_copied};
ghost use Rattle.std.specs.Borrow.{sem};
ghost use Rattle.std.specs.Io.BufRead.{Rests};
ghost use Rattle.rb_base.specs.declared.limits.TheConstants.{MOST_HELD_BYTES};
ghost use Rattle.rb_code.specs.WordMachine.Workspace.{held_place, word_at};
ghost use Rattle.rb_meaning.specs.Environment.{natural};
ghost use Rattle.rb_meaning.specs.Step.{most_held};
ghost use Rattle.rb_hold.specs.Held.{IsLine};
ghost use Rattle.rb_recoverable.specs.Contents.{TellsHeld, line_added, released_by};

use super::Recoverable;
use rb_base::Steps;
use std::sync::ledger::Ledger;

impl<L: Ledger> Recoverable<L> {
    ghost use Rattle.rb_recoverable.specs.contracts.recoverable.Recoverable.{the_row};

    /// Holds one more line. False, with nothing changed, exactly where the held bytes would be above 65,536.
    pub fn print(&mut self, line: &[u8], steps: &mut Steps<L>) -> bool
        requires none_waits { self.old.waiting ≡ [] }
        requires line { IsLine line.now }
        ensures room { result ≡ not (nat_lt most_held (natural (word_at self.old.words held_place) + (length line.now + 1))) }
        ensures after { self.new
            ≡ cond result (line_added (natural (word_at self.old.words held_place) + (length line.now + 1)) line.now self.old) self.old }
        ensures ticks { steps.new ≤ steps.old + 2 }
    {
        let fits = self.hold.add(line);
        if fits {
            let length = self.hold.length();
            self.cache
                .write(&mut self.cells, 0, i64::from(length), steps);
        }
        fits
    }

    // Whether lines are held. Where none is, the held length is 0 as it stands.
    fn holds(&self) -> bool
        ensures { TellsHeld result self.now.held self.now.words }
    {
        self.hold.length() > 0
    }

    /// Whether a release would tell lines: some are held, and no level is open.
    #[inline(always)]
    pub fn may_release(&self) -> bool
        ensures { MatchBool result ((length self.now.levels ≡ 0) × (0 < length self.now.held))
            (released_by self.now.levels self.now ≡ record self.now { waiting = [] }) }
    {
        self.holds() && self.levels() == 0
    }

    // Releases all held lines, where no level is open.
    #[cold]
    #[inline(never)]
    fn release(&mut self, steps: &mut Steps<L>)
        requires none_waits { self.old.waiting ≡ [] }
        requires none_open { length self.old.levels ≡ 0 }
        ensures lines { self.new ≡ record self.old { words = slice_set self.old.words held_place (pos 0); held = []; waiting = self.old.held } }
        ensures ticks { steps.new ≤ steps.old + 2 }
    {
        self.hold.release();
        self.cache.write(&mut self.cells, 0, 0, steps);
    }

    /// Releases all held lines if no level is open. Where one is, or no line is held, nothing is touched.
    #[inline(always)]
    pub fn release_if_free(&mut self, steps: &mut Steps<L>)
        requires none_waits { self.old.waiting ≡ [] }
        ensures lines { self.new ≡ released_by self.old.levels self.old }
        ensures ticks { steps.new ≤ steps.old + 2 }
        ensures quiet { self.old.held ≡ [] → steps.new ≡ steps.old }
        ensures within { 0 < length self.old.levels → steps.new ≡ steps.old }
    {
        if self.may_release() {
            self.release(steps);
        }
    }

    /// Lends the first line that waits, which no longer does then; `None` exactly where none waits.
    pub fn released(&mut self) -> Option<&[u8]>
        ensures lent { option_copied result ≡ slice_get self.old.waiting 0 }
        ensures* after { sem 𝓛 (Rests (the_row L.row L.Ledger) self.entry (λ new. new ≡ record self.old { waiting = drop 1 self.old.waiting })) }
    {
        self.hold.next_line()
    }

    /// Forgets the lines that wait, and answers how many they were.
    pub fn drop_released(&mut self) -> u32
        ensures count { result ≡ length self.old.waiting }
        ensures few { result ≤ MOST_HELD_BYTES }
        ensures none { self.new ≡ record self.old { waiting = [] } }
    {
        self.hold.drop_released()
    }
}
