//! The first fault so far.

ghost use Rattle.std.specs.Prelude.{◌≡◌};
ghost use Rattle.rb_scope.specs.Finding.{first_after};
ghost use Rattle.rb_scope.specs.Rules.{where_broken};

use rb_base::{FaultName, Place, SourceFault};
use rb_scope::first::first_with;

/// One fault more, where its rule is broken.
pub fn note(first: &mut Option<SourceFault>, broken: bool, name: FaultName, place: Place)
    ensures { first.new ≡ first_after first.old (where_broken broken name place) }
{
    if broken {
        *first = Some(first_with(*first, SourceFault { name, place }));
    }
}
