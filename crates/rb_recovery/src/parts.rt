//! The parts of the machine: its processes, channels, conversations, and the links of the turns that were kept.

ghost use Rattle.std.specs.Prelude.{◌≡◌, ◌<◌, length, option_copied};
ghost use Rattle.std.specs.Borrow.{sem};
ghost use Rattle.std.specs.Io.BufRead.{Rests};
ghost use Rattle.rb_base.specs.Lines.{next_line};
ghost use Rattle.rb_recovery.specs.Reading.{HasLent};
ghost use Rattle.rb_recovery.specs.Worlds.{lines_of};

use crate::links::Links;
use rb_conv::Table;
use rb_mail::Mails;
use rb_proc::Proc;
use std::sync::ledger::Ledger;

/// The channels and the processes of a program by number, its conversations, and the links of the turns that were kept, the newest last. The
/// channels come first, and in the machine the parts do: then no turn works out where they lie.
#[derive(Drop)]
pub struct Parts<L: Ledger> {
    pub mails: Mails,
    pub procs: Vec<Proc<L>>,
    pub table: Table,
    pub links: Links,
}

impl<L: Ledger> Parts<L> {
    ghost use Rattle.rb_recovery.specs.contracts.parts.Parts.{the_row};

    /// Lends the next released line of process p, which no longer waits then; `None` exactly where none of its lines waits.
    pub fn released(&mut self, p: u32) -> Option<&[u8]>
        requires { p < length self.old.procs.items }
        ensures lent { option_copied result ≡ next_line (lines_of self.old.procs.items) p }
        ensures* after { sem 𝓛 (Rests (the_row L.row L.Ledger) self.entry (λ new. HasLent p self.old new)) }
    {
        self.procs[p as usize].released()
    }
}
