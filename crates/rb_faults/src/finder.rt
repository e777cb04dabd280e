//! The faults so far, on the way through a tree.

ghost use Rattle.std.specs.Prelude.{◌≡◌, ◌++◌, [], OnOk};
ghost use Rattle.rb_scope.specs.Rules.{where_broken};

use rb_base::{FaultName, Memory, Place, SourceFault};
use std::alloc::Global;
use std::marker::Model;

/// The faults so far, in the order in which their sites were visited.
#[derive(Drop)]
pub(crate) struct Finder {
    faults: Vec<SourceFault>,
}

impl Model for Finder {
    ghost use Rattle.std.specs.Prelude.{List};
    ghost use Rattle.rb_base.specs.declared.fault.SourceFault.{SourceFault};

    ghost Value = { List SourceFault };

    ghost view = { λ finder. finder.faults.items };
}

impl Finder {
    /// No fault yet.
    pub(crate) fn new(alloc: Global) -> Self
        ensures { result ≡ [] }
    {
        Finder {
            faults: Vec::new(alloc),
        }
    }

    /// One fault more, where its rule is broken.
    pub(crate) fn note(&mut self, broken: bool, name: FaultName, place: Place) -> Result<(), Memory>
        ensures { OnOk result (self.new ≡ self.old ++ where_broken broken name place) }
    {
        if broken {
            self.faults.push(SourceFault { name, place })?;
        }
        Ok(())
    }

    /// All faults that were noted.
    pub(crate) fn faults(self) -> Vec<SourceFault>
        ensures { result.items ≡ self }
    {
        self.faults
    }
}
