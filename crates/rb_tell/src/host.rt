//! What the host says of calls that failed.

use rb_outside::{HostShelf, HostSink};
use std::io;
use std::rt::Files;

/// A shelf or a sink of which is known what the system said of its call that failed last.
pub trait Blamed {
    /// What the system said; nothing where no call failed, or where nothing is known.
    fn reason(&self) -> Option<io::Error>;
}

impl<R: Files> Blamed for HostShelf<'_, R> {
    fn reason(&self) -> Option<io::Error> {
        self.reason()
    }
}

impl<R: Print> Blamed for HostSink<'_, R> {
    fn reason(&self) -> Option<io::Error> {
        self.reason()
    }
}
