//! Names: how each is spelled.

ghost use Rattle.std.specs.Prelude.{◌≡◌, ◌↔◌, ◌≤◌, ℕ, IsTrue, Some};
ghost use Rattle.rb_scope.specs.Spelled.{IsNaming};
ghost use Rattle.rb_trace.specs.Naming.{process_naming, variable_naming};
ghost use Rattle.rb_code.specs.SoundCode.WellFormed.{NamesProcess, NamesVariable};
ghost use Rattle.rb_lists.specs.Naming.{AreNamings, NamesProcedures};

use crate::rule::{Allows, all_allowed};
use rb_base::bytes::is_name;
use rb_base::{Edition, LONGEST_NAME, MOST_ELEMENTS, ProcessNames, Text, Variable};
use rb_code::{ProcedureCode, ProcessCode};
use rb_lex::is_reserved;

/// Whether all these are names of an edition.
pub(crate) fn are_namings(edition: Edition, names: &[Text]) -> bool
    ensures { IsTrue result ↔ AreNamings edition names.now }
{
    all_allowed(&edition, names)
}

impl Allows<Text> for Edition {
    ghost Law = { IsNaming };

    fn allows(&self, name: &Text) -> bool {
        is_naming(*self, name.as_bytes())
    }
}

impl Allows<ProcessCode> for Edition {
    ghost Law = { NamesProcedures };

    fn allows(&self, process: &ProcessCode) -> bool {
        all_allowed(self, &process.procedures)
    }
}

impl Allows<ProcedureCode> for Edition {
    ghost Law = { λ edition one. IsNaming edition one.name };

    fn allows(&self, procedure: &ProcedureCode) -> bool {
        is_naming(*self, procedure.name.as_bytes())
    }
}

impl Allows<ProcessNames> for Edition {
    ghost Law = { λ edition process. NamesProcess edition (process_naming process) };

    fn allows(&self, process: &ProcessNames) -> bool {
        is_naming(*self, process.name.as_bytes()) && all_allowed(self, &process.variables)
    }
}

impl Allows<Variable> for Edition {
    ghost Law = { λ edition variable. NamesVariable edition (variable_naming variable) };

    fn allows(&self, variable: &Variable) -> bool {
        is_naming(*self, variable.name.as_bytes()) && is_size(variable.size)
    }
}

// Whether an array may have so many elements; of what is no array nothing is asked.
fn is_size(size: Option<u32>) -> bool
    ensures { IsTrue result ↔ ((n : ℕ) → size ≡ Some n → n ≤ MOST_ELEMENTS) }
{
    match size {
        None => true,
        Some(elements) => elements <= MOST_ELEMENTS,
    }
}

fn is_naming(edition: Edition, name: &[u8]) -> bool
    ensures { IsTrue result ↔ IsNaming edition name.now }
{
    name.len() <= LONGEST_NAME && is_name(name) && !is_reserved(edition, name)
}
