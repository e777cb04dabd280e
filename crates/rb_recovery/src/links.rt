//! The turns that were kept, each with the last kept turn of its process before it.

ghost use Rattle.std.specs.Prelude.{◌≡◌, ◌+◌, ◌^◌, ◌≤◌, true, false, List, [], ◌∷◌, ◌++◌, IfOk, MatchOption};
ghost use Rattle.rb_proc.specs.Given.{alternate_by};
ghost use Rattle.rb_recovery.specs.Links.{HasRoom};

use crate::all_links::AllLinks;
use crate::innermost::started;
use rb_base::Memory;
use rb_proc::{Proc, Wanted};
use std::alloc::Global;
use std::marker::Model;
use std::sync::ledger::Ledger;

/// A turn that was kept: its number, its process, the alternate that it started or 0, and the last kept turn of its process before it.
#[derive(Clone, Copy)]
pub struct Link {
    pub turn: u32,
    pub process: u32,
    pub alternate: u32,
    pub before: u32,
}

/// The links of the turns that were kept, the newest last. They are held only where survivors may be asked for; contracts see them in any case.
#[derive(Drop)]
pub struct Links {
    items: Vec<Link>,
    held: bool,
    all: AllLinks,
}

impl Model for Links {
    ghost use Rattle.std.specs.Prelude.{◌≡◌, true, vec_len, vec_capacity};
    ghost use Rattle.rb_recovery.specs.Links.{Chain, room_for};

    ghost Value = { Chain };

    ghost view = { λ l. record {
      items = l.all.items;
      held = l.held;
      room =
          room_for l.held (vec_len l.items) (vec_capacity l.items);
    } };

    ghost invariant = { λ l. l.held ≡ true → l.items.items ≡ l.all.items };
}

impl Links {
    /// No link yet, and none will be held.
    pub fn unheld(alloc: Global) -> Self
        ensures items { result.items ≡ [] }
        ensures held { result.held ≡ false }
        ensures room { result.room ≡ 2 ^ 32 }
    {
        Links {
            items: Vec::new(alloc),
            held: false,
            all: AllLinks::none(),
        }
    }

    /// No link yet, and all will be held: there is room for those of so many turns.
    pub fn held(alloc: Global, turns: u32) -> Result<Self, Memory>
        ensures items { IfOk result (λ links. links.items ≡ []) }
        ensures held { IfOk result (λ links. links.held ≡ true) }
        ensures room { IfOk result (λ links. turns ≤ links.room) }
    {
        Ok(Links {
            items: Vec::with_capacity(alloc, turns as usize)?,
            held: true,
            all: AllLinks::none(),
        })
    }

    /// Adds the link of a turn of process p, by how the process stands before it and what it wants. Where links are not held nothing is
    /// looked up for it.
    #[inline(always)]
    pub fn note<L: Ledger>(&mut self, proc: &Proc<L>, turn: u32, p: u32, wanted: Wanted)
        ghost link: { Link }
        requires link { link
            ≡ record {
              turn = turn;
              process = p;
              alternate = alternate_by wanted proc.now.process.levels;
              before = proc.now.process.state.last_kept;
            } }
        requires room { HasRoom self.old }
        ensures items { self.new.items ≡ self.old.items ++ link ∷ [] }
        ensures held { self.new.held ≡ self.old.held }
        ensures room { self.old.room ≤ self.new.room + 1 }
    {
        if self.held {
            self.items.push_reserved(Link {
                turn,
                process: p,
                alternate: started(wanted, proc),
                before: proc.last_kept(),
            });
        }
        self.all = AllLinks::after(&self.all);
    }

    /// All links, the newest last, if they are held.
    pub fn items(&self) -> Option<&[Link]>
        ensures { MatchOption result (self.now.held ≡ false) (λ links. links.now ≡ self.now.items) }
    {
        if self.held { Some(&self.items) } else { None }
    }
}
