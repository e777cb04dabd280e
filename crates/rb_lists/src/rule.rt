//! Rules that all items of a list have to keep.

ghost use Rattle.std.specs.Prelude.{◌↔◌, ◌<◌, IsTrue};
ghost use Rattle.std.specs.List.{All};

/// What tells of an item whether it is lawful: an edition of names, a code of what names its parts.
pub(crate) trait Allows<T> {
    /// When an item is lawful.
    ghost Law: { Self → T → Type 0 };

    /// Whether an item is lawful.
    fn allows(&self, item: &T) -> bool
        ensures { IsTrue result ↔ Law self.now item.now };
}

/// Whether all items are lawful.
pub(crate) fn all_allowed<T, R: Allows<T>>(rule: &R, items: &[T]) -> bool
    ensures { IsTrue result ↔ All (R.Law rule.now) items.now }
{
    let mut rest = items;
    'items: while let [item, after @ ..] = rest {
        if !rule.allows(item) {
            return false;
        }
        rest = after;
    }
    true
}

/// A number below a count.
#[derive(Clone, Copy)]
pub(crate) struct Below(pub(crate) usize);

impl Allows<u32> for Below {
    ghost Law = { λ below number. number < below.0 };

    fn allows(&self, number: &u32) -> bool {
        (*number as usize) < self.0
    }
}
