//! What is known at an address, and whether it is to be followed.

ghost use Rattle.std.specs.Prelude.{◌≡◌, Some, true};

use crate::entry::Held;

/// The entry that was found, and whether the address is to be followed.
#[derive(Clone, Copy)]
pub struct Cell {
    pub entry: Option<Held>,
    pub pending: bool,
}

/// An address that has another entry now, so it is to be followed.
#[inline(always)]
pub fn changed(entry: Held) -> Cell
    ensures { result ≡ record { entry = Some entry; pending = true } }
{
    Cell {
        entry: Some(entry),
        pending: true,
    }
}
