//! Which processes rest: a turn of one that is done, or that waits with no level open, changes nothing until another process goes on.

ghost use Rattle.std.specs.Prelude.{◌≡◌, ◌+◌, ◌<◌, ◌-◌, ◌^◌, nat_eq, true, length, replicate, set, slice_get, IfOk};
ghost use Rattle.rb_base.specs.declared.event.TurnKind.TheVariants.{Idle};
ghost use Rattle.rb_machine.specs.Resting.{IsBare, changed_after, is_still, kind_of, one_more};
ghost use Rattle.rb_recovery.specs.Worlds.{processes_of};

use rb_base::{Memory, TurnKind};
use rb_proc::Proc;
use std::alloc::Global;
use std::sync::ledger::Ledger;

/// In which turn it was noted that a process rests, and of which kind its turns are as long as it does.
#[derive(Clone, Copy)]
pub struct Rest {
    pub since: u32,
    pub kind: TurnKind,
}

/// What was noted of each process, the last turn in which notes were forgotten, since it changed something, and of how many processes it was
/// noted since then that they rest.
#[derive(Drop)]
pub struct Resting {
    pub rests: Vec<Rest>,
    pub changed: u32,
    pub noted: u32,
}

impl Resting {
    /// Nothing is noted yet; `Memory` if it is wanting.
    pub fn new(alloc: Global, processes: usize) -> Result<Self, Memory>
        ensures rests { IfOk result (λ resting. resting.rests.items ≡ replicate processes (record { since = 0; kind = Idle })) }
        ensures changed { IfOk result (λ resting. resting.changed ≡ 0) }
        ensures noted { IfOk result (λ resting. resting.noted ≡ 0) }
    {
        let none = Rest {
            since: 0,
            kind: TurnKind::Idle,
        };
        Ok(Resting {
            rests: vec![in alloc; none; processes]?,
            changed: 0,
            noted: 0,
        })
    }

    /// The kind of the next turn of process p, where it is known to rest.
    pub fn kind(&self, p: u32) -> Option<TurnKind>
        ensures { result ≡ kind_of self.now.rests.items self.now.changed p }
    {
        match self.rests.get(p as usize) {
            Some(rest) if self.changed < rest.since => Some(rest.kind),
            _ => None,
        }
    }

    /// Notes in turn number `turn` of process p that it rests since then, in turns of this kind.
    pub fn note(&mut self, p: u32, turn: u32, kind: TurnKind)
        requires few { self.old.noted < 2 ^ 32 - 1 }
        ensures rests { self.new.rests.items ≡ set self.old.rests.items p (record { since = turn; kind = kind }) }
        ensures changed { self.new.changed ≡ self.old.changed }
        ensures noted { self.new.noted ≡ self.old.noted + one_more self.old.changed (slice_get self.old.rests.items p) }
    {
        if (p as usize) < self.rests.len() {
            if self.rests[p as usize].since <= self.changed {
                self.noted += 1;
            }
            self.rests[p as usize] = Rest { since: turn, kind };
        }
    }

    /// Turn number `turn` changed something: of those that were noted to rest, if there are some, nothing is known any more.
    #[inline(always)]
    pub fn forget(&mut self, turn: u32)
        ensures rests { self.new.rests.items ≡ self.old.rests.items }
        ensures changed { self.new.changed ≡ changed_after self.old.noted self.old.changed turn }
        ensures noted { self.new.noted ≡ 0 }
    {
        if self.noted != 0 {
            self.changed = turn;
            self.noted = 0;
        }
    }

    /// Whether each process is known to rest.
    pub fn is_all(&self) -> bool
        ensures { result ≡ nat_eq self.now.noted (length self.now.rests.items) }
    {
        self.noted as usize == self.rests.len()
    }
}

/// Whether a turn was neither taken nor undone.
pub fn is_still(kind: TurnKind) -> bool
    ensures { result ≡ is_still kind }
{
    match kind {
        TurnKind::Idle | TurnKind::Wait => true,
        TurnKind::Took | TurnKind::Undone => false,
    }
}

/// Whether process p has no level, if there is such a process.
pub fn is_bare<L: Ledger>(procs: &[Proc<L>], p: u32) -> bool
    ensures { result ≡ true → IsBare (slice_get (processes_of procs.now) p) }
{
    if p as usize >= procs.len() {
        return true;
    }
    procs[p as usize].levels() == 0
}
