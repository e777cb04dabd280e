//! Names: no two of those that a source declares outside its processes are alike.

ghost use Rattle.std.specs.Prelude.{◌≡◌, ◌↔◌, ◌++◌, ℕ, List, false, IfOk, IsTrue, OnOk, map};
ghost use Rattle.std.specs.List.{IsDistinct, list_any};
ghost use Rattle.rb_meaning.specs.Environment.{same_name};
ghost use Rattle.rb_trace.specs.Naming.{naming};
ghost use Rattle.rb_code.specs.SoundCode.WellFormed.{outer_names};
ghost use Rattle.rb_lists.specs.Naming.{all_differ};

use crate::rule::{Allows, all_allowed};
use rb_base::{Memory, Names, ProcessNames, Text};
use std::alloc::Global;

/// Whether the names of processes, channels and conversations all differ. Each is compared with each: the lists were found to be short.
pub(crate) fn names_differ(alloc: Global, names: &Names) -> Result<bool, Memory>
    ensures { IfOk result (λ yes. IsTrue yes ↔ IsDistinct same_name (outer_names (naming names.now))) }
{
    let mut outer = Vec::new(alloc);
    push_outer(names, &mut outer)?;
    Ok(all_differ(&outer))
}

fn push_outer<'n>(names: &'n Names, outer: &mut Vec<&'n [u8]>) -> Result<(), Memory>
    ensures { OnOk result
        (map (λ name. name.now) outer.new.items ≡ map (λ name. name.now) outer.old.items ++ outer_names (naming names.now)) }
{
    push_names(&names.processes, outer)?;
    push_names(&names.channels, outer)?;
    push_names(&names.conversations, outer)
}

// What has a name.
trait Named {
    ghost name: { Self → List ℕ };

    fn name(&self) -> &[u8]
        ensures { result.now ≡ name self.now };
}

impl Named for ProcessNames {
    ghost name = { λ process. process.name };

    fn name(&self) -> &[u8] {
        self.name.as_bytes()
    }
}

impl Named for Text {
    ghost name = { λ text. text };

    fn name(&self) -> &[u8] {
        self.as_bytes()
    }
}

fn push_names<'n, T: Named>(items: &'n [T], outer: &mut Vec<&'n [u8]>) -> Result<(), Memory>
    ensures { OnOk result
        (map (λ name. name.now) outer.new.items ≡ map (λ name. name.now) outer.old.items ++ map T.name items.now) }
{
    for item in items {
        outer.push(item.name())?;
    }
    Ok(())
}

fn all_differ(names: &[&[u8]]) -> bool
    ensures { result ≡ all_differ names.now }
{
    let mut rest = names;
    'names: while let [name, after @ ..] = rest {
        if is_among(name, after) {
            return false;
        }
        rest = after;
    }
    true
}

fn is_among(name: &[u8], others: &[&[u8]]) -> bool
    ensures { result ≡ list_any (λ other. same_name name.now other.now) others.now }
{
    !all_allowed(&OtherThan(name), others)
}

// Names that are not this one.
#[derive(Clone, Copy)]
struct OtherThan<'n>(&'n [u8]);

impl<'n> Allows<&'n [u8]> for OtherThan<'n> {
    ghost Law = { λ than other. same_name than.0.now other.now ≡ false };

    fn allows(&self, other: &&'n [u8]) -> bool {
        self.0 != *other
    }
}
