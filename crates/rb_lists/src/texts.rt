//! Texts: what may stand between quotes.

ghost use Rattle.std.specs.Prelude.{◌≡◌, ◌↔◌, true, IsTrue};
ghost use Rattle.rb_scope.specs.Spelled.{IsQuotable, is_quotable};
ghost use Rattle.rb_lists.specs.Naming.{AreQuotable};

use crate::rule::{Allows, all_allowed};
use rb_base::{LONGEST_TEXT, Text};

/// Whether each of these may stand between quotes.
pub(crate) fn are_quotable(texts: &[Text]) -> bool
    ensures { IsTrue result ↔ AreQuotable texts.now }
{
    all_allowed(&Quotes, texts)
}

// What may stand between quotes.
#[derive(Clone, Copy)]
struct Quotes;

impl Allows<Text> for Quotes {
    ghost Law = { λ _. IsQuotable };

    fn allows(&self, text: &Text) -> bool {
        text.as_bytes().len() <= LONGEST_TEXT && all_allowed(self, text.as_bytes())
    }
}

impl Allows<u8> for Quotes {
    ghost Law = { λ _ byte. is_quotable byte ≡ true };

    fn allows(&self, byte: &u8) -> bool {
        *byte >= b' ' && *byte <= b'~' && *byte != b'"'
    }
}
