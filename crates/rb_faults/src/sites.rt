//! What each site of a tree adds to what is found.

ghost use Rattle.std.specs.Prelude.{◌≡◌, ◌+◌, ◌<◌, length, slice_get, take, Some, OnOk};
ghost use Rattle.rb_syntax.specs.Plain.{identifier};
ghost use Rattle.rb_scope.specs.Sites.{Declares, Uses, Calls, LooksBack, Sizes, Channels, Bounds, Takes, Quantifies};
ghost use Rattle.rb_faults.specs.Finding.{visit};
ghost use Rattle.rb_scope.specs.Memory.{scopes_of};
ghost use Rattle.rb_scope.specs.Scopes.{Declared};

use crate::finder::Finder;
use crate::rules::{fits, is_array_size, is_outside};
use rb_base::limits::{MOST_CHANNEL_SIZE, MOST_TURNS};
use rb_base::{FaultName, Memory, Place};
use rb_scope::{Scope, Scopes, Want};
use rb_syntax::{Name, Number};

/// The name at a place of a scope is declared there.
pub(crate) fn declares(finder: &mut Finder, scope: &Scope<'_>, place: usize) -> Result<(), Memory>
    requires { place < length scope.now }
    ensures { (one : Declared) → slice_get scope.now place ≡ Some one
        → OnOk result (finder.new ≡ visit finder.old (Declares (take place scope.now) one)) }
{
    let one = scope.at(place);
    let known = scope.is_before(one.name.text, place);
    finder.note(known, FaultName::S2, one.name.place)
}

/// A name is used with these scopes around it.
#[tactic(auto, unfolding(crate::specs::Finding::visit))]
pub(crate) fn uses(
    finder: &mut Finder,
    want: Want,
    name: Name<'_>,
    scopes: &Scopes<'_, '_>,
) -> Result<(), Memory>
    ensures { OnOk result (finder.new ≡ visit finder.old (Uses want (identifier name.entry) (scopes_of scopes.now))) }
{
    match scopes.meaning_of(name.text) {
        None => finder.note(true, FaultName::S1, name.place),
        Some(one) => finder.note(!fits(want, one.slot), FaultName::S3, name.place),
    }
}

/// A procedure is called with so many arguments.
#[tactic(auto, unfolding(crate::specs::Finding::visit))]
pub(crate) fn calls(
    finder: &mut Finder,
    name: Name<'_>,
    arguments: usize,
    scopes: &Scopes<'_, '_>,
) -> Result<(), Memory>
    ensures { OnOk result (finder.new ≡ visit finder.old (Calls (identifier name.entry) arguments (scopes_of scopes.now))) }
{
    if let Some(one) = scopes.meaning_of(name.text) {
        let miscalled = fits(Want::AProcedure, one.slot) && one.parameters != arguments;
        finder.note(miscalled, FaultName::S4, name.place)?;
    }
    Ok(())
}

/// `prior` stands in an acceptance test, or outside all.
#[tactic(auto, unfolding(crate::specs::Finding::visit))]
pub(crate) fn looks_back(finder: &mut Finder, place: Place, in_test: bool) -> Result<(), Memory>
    ensures { OnOk result (finder.new ≡ visit finder.old (LooksBack place in_test)) }
{
    finder.note(!in_test, FaultName::S5, place)
}

/// An array has this size.
#[tactic(auto, unfolding(crate::specs::Finding::visit))]
pub(crate) fn sizes(finder: &mut Finder, size: Number) -> Result<(), Memory>
    ensures { OnOk result (finder.new ≡ visit finder.old (Sizes size)) }
{
    finder.note(!is_array_size(size), FaultName::S6, size.place)
}

/// A channel has this size.
#[tactic(auto, unfolding(crate::specs::Finding::visit))]
pub(crate) fn channels(finder: &mut Finder, size: Number) -> Result<(), Memory>
    ensures { OnOk result (finder.new ≡ visit finder.old (Channels size)) }
{
    finder.note(
        is_outside(MOST_CHANNEL_SIZE, size),
        FaultName::S8,
        size.place,
    )
}

/// A recovery block has this turn bound.
#[tactic(auto, unfolding(crate::specs::Finding::visit))]
pub(crate) fn bounds(finder: &mut Finder, bound: Number) -> Result<(), Memory>
    ensures { OnOk result (finder.new ≡ visit finder.old (Bounds bound)) }
{
    finder.note(is_outside(MOST_TURNS, bound), FaultName::S9, bound.place)
}

/// A variable takes some of the words of its process, behind those of the variables before it.
#[tactic(auto, unfolding(crate::specs::Finding::visit))]
pub(crate) fn takes(
    finder: &mut Finder,
    most: u32,
    before: u32,
    after: u32,
    words: u32,
    place: Place,
) -> Result<(), Memory>
    requires { after ≡ before + words }
    ensures { OnOk result (finder.new ≡ visit finder.old (Takes most before words place)) }
{
    finder.note(before <= most && most < after, FaultName::S10, place)
}

/// A quantified expression stands within so many others.
#[tactic(auto, unfolding(crate::specs::Finding::visit))]
pub(crate) fn quantifies(finder: &mut Finder, around: u32, place: Place) -> Result<(), Memory>
    ensures { OnOk result (finder.new ≡ visit finder.old (Quantifies around place)) }
{
    finder.note(around >= 2, FaultName::S11, place)
}
