//! A shelf of files in memory, of which none fails to be read.

ghost use Rattle.std.specs.Prelude.{◌≡◌, [], Some, false};
ghost use Rattle.rb_outside.specs.Started.{stored_files};
ghost use Rattle.rb_web.specs.Kept.{no_fault};

use rb_outside::{Failed, MemoryShelf, Shelf};
use rb_tell::Blamed;
use std::alloc::Global;
use std::io;
use std::marker::Model;

/// Files that are kept in memory. A call fails only where no file has the name.
#[derive(Drop)]
pub struct Texts {
    shelf: MemoryShelf,
}

impl Model for Texts {
    ghost use Rattle.std.specs.Prelude.{◌≡◌, []};
    ghost use Rattle.rb_web.specs.Kept.{KeptTexts};

    ghost Value = { KeptTexts };

    ghost view = { λ t. record { files = t.shelf.files; starts = t.shelf.starts; failed_last = t.shelf.calls.faults.failed_last } };

    // no call fails by its number
    ghost invariant = { λ t. t.shelf.calls.failing ≡ [] };
}

impl Texts {
    /// Files, each as its name and its bytes; of two with one name the first counts.
    pub fn new(alloc: Global, files: Vec<(Vec<u8>, Vec<u8>)>) -> Self
        ensures { result ≡ record { files = stored_files files.items; starts = []; failed_last = false } }
    {
        Texts {
            shelf: MemoryShelf::new(files, Vec::new(alloc)),
        }
    }
}

impl Shelf for Texts {
    ghost files = { λ t. Some t.files };

    ghost faults = { λ t. no_fault t };

    ghost starts = { λ t. t.starts };

    /// It fails only where no file has the name.
    fn start(&mut self, name: &str) -> Result<(), Failed> {
        self.shelf.start(name)
    }

    /// It never fails.
    fn piece(&mut self, buffer: &mut [u8]) -> Result<usize, Failed> {
        self.shelf.piece(buffer)
    }
}

impl Blamed for Texts {
    /// Nothing: there is no system to say why.
    fn reason(&self) -> Option<io::Error> {
        None
    }
}
