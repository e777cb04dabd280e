//! What is found on the way through a tree: the first fault so far, and the slots of the names so far.

ghost use Rattle.std.specs.Prelude.{◌≡◌, slice_set, replicate, None, IfErr, IfOk};
ghost use Rattle.rb_scope.specs.Finding.{first_after};
ghost use Rattle.rb_scope.specs.Rules.{where_broken};

use crate::first::first_with;
use crate::slot::Slot;
use rb_base::{FaultName, Memory, Place, SourceFault};
use std::alloc::Global;
use std::marker::Model;

/// The first fault so far, and the slots so far, by the numbers of the names.
#[derive(Drop)]
pub struct Finder {
    first: Option<SourceFault>,
    slots: Vec<Slot>,
}

impl Model for Finder {
    ghost use Rattle.rb_scope.specs.Finding.{Found};

    ghost Value = { Found };

    ghost view = { λ finder. record { first = finder.first; slots = finder.slots.items } };
}

impl Finder {
    /// No fault, and each of so many names is taken for that of the program.
    pub fn new(alloc: Global, names: u32) -> Result<Self, Memory>
        ensures { IfOk result (λ finder. finder ≡ record { first = None; slots = replicate names Slot.ProgramName }) }
    {
        let slots = Vec::from_elem(alloc, Slot::ProgramName, names as usize)?;
        Ok(Finder { first: None, slots })
    }

    /// One fault more, where its rule is broken.
    pub fn note(&mut self, broken: bool, name: FaultName, place: Place)
        ensures { self.new ≡ record self.old { first = first_after self.old.first (where_broken broken name place) } }
    {
        if broken {
            self.first = Some(first_with(self.first, SourceFault { name, place }));
        }
    }

    /// The slot of the name of this number.
    pub fn give(&mut self, id: u32, slot: Slot)
        ensures { self.new ≡ record self.old { slots = slice_set self.old.slots id slot } }
    {
        set(&mut self.slots, id as usize, slot);
    }

    /// The slots, unless there is a fault.
    pub fn slots(self) -> Result<Vec<Slot>, SourceFault>
        ensures ok { IfOk result (λ slots. (self.first ≡ None) × (slots.items ≡ self.slots)) }
        ensures err { IfErr result (λ fault. self.first ≡ Some fault) }
    {
        match self.first {
            None => Ok(self.slots),
            Some(fault) => Err(fault),
        }
    }
}

fn set(slots: &mut [Slot], at: usize, slot: Slot)
    ensures { slots.new ≡ slice_set slots.old at slot }
{
    if at < slots.len() {
        slots[at] = slot;
    }
}
