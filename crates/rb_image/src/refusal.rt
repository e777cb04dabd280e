//! Why no image was read.

ghost use Rattle.std.specs.Prelude.{◌≡◌};
ghost use Rattle.rb_image.specs.declared.refusal.FormRefusal.TheVariants.{Memory as OutOfMemory};

use rb_base::Memory;
use std::alloc::{AllocError, AllocFailed};

/// Why no image was read: the bytes are none, or memory is wanting.
#[derive(Clone, Copy)]
pub enum FormRefusal {
    Form,
    Memory,
}

impl From<AllocError> for FormRefusal {
    ghost from_gives = { λ _ e. e ≡ OutOfMemory };

    fn from(_error: AllocError) -> FormRefusal {
        FormRefusal::Memory
    }
}

impl<T: Drop> From<AllocFailed<T>> for FormRefusal {
    ghost from_gives = { λ _ e. e ≡ OutOfMemory };

    fn from(_error: AllocFailed<T>) -> FormRefusal {
        FormRefusal::Memory
    }
}

impl From<Memory> for FormRefusal {
    ghost from_gives = { λ _ e. e ≡ OutOfMemory };

    fn from(_error: Memory) -> FormRefusal {
        FormRefusal::Memory
    }
}
