//! Where an instruction leads.

ghost use Rattle.std.specs.Prelude.{◌≡◌};
ghost use Rattle.rb_flow.specs.Ways.{chosen};

use rb_entries::entry::Held;

/// Nowhere, since its rule is broken; nowhere, since it ends; to an address; to two; or to each alternate of a block.
#[derive(Clone, Copy)]
pub enum Way {
    Broken,
    Ends,
    One(u32, Held),
    Two(u32, Held, u32, Held),
    Each(Held, u32),
}

/// Where a test holds, there; else nowhere.
pub fn when(test: bool, way: Way) -> Way
    ensures { result ≡ chosen test way }
{
    if test { way } else { Way::Broken }
}
