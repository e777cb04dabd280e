//! The links of all turns that were kept, which contracts alone see: they take no bytes.

ghost use Rattle.std.specs.Prelude.{◌≡◌, List, []};
ghost use Rattle.std.specs.Borrow.{ftrue};
ghost use Rattle.rb_recovery.specs.declared.links.Link.{Link};

use std::marker::Model;

/// The links of all turns that were kept, the newest last.
#[derive(Drop)]
pub struct AllLinks {
    pub ghost items: { List Link },
}

impl Model for AllLinks {
    ghost also_owns = { λ _. ftrue };
}

impl AllLinks {
    /// There is none.
    pub fn none() -> AllLinks
        ensures { result.items ≡ [] }
    {
        AllLinks {}
    }

    /// Those that the caller's proof picks, in place of those before.
    #[inline(always)]
    pub fn after(_before: &AllLinks) -> AllLinks
        ghost items: { List Link }
        ensures { result.items ≡ items }
    {
        AllLinks {}
    }
}
