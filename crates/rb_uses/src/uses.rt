//! All uses of a program.

ghost use Rattle.std.specs.Prelude.{◌≡◌, IfOk};
ghost use Rattle.std.specs.List.{list_any};
ghost use Rattle.rb_syntax.specs.Plain.{tree};
ghost use Rattle.rb_meaning.specs.Groups.{first_in_processes, parent_named};
ghost use Rattle.rb_meaning.specs.Nesting.{alternates_of, uses_of};
ghost use Rattle.rb_nest.specs.Rules.{joins_in};
ghost use Rattle.rb_uses.specs.Memory.{all_held};
ghost use Rattle.rb_uses.specs.Summary.{joins_among, summaries};

use crate::joins::{first_alternates, first_within, is_joined, joins_among};
use crate::processes::uses_in_processes;
use crate::usage::Use;
use rb_base::Memory;
use rb_syntax::Program;
use std::alloc::Global;

/// All uses of a program in the order of the text, and those among them that join a conversation.
pub struct Uses<'p, 'a> {
    pub program: &'p Program<'a>,
    all: Vec<Use<'a>>,
    joins: Vec<Use<'a>>,
    ghost told: { all_held all.items ≡ summaries (tree program.now) },
    ghost joined: { all_held joins.items ≡ joins_among (summaries (tree program.now)) },
}

impl Drop for Uses<'_, '_> {
    fn drop(self) {
        let Uses {
            program: _,
            all: _,
            joins: _,
        } = self;
    }
}

impl<'p, 'a> Uses<'p, 'a> {
    /// The uses of a program.
    pub fn new(alloc: Global, program: &'p Program<'a>) -> Result<Self, Memory>
        ensures { IfOk result (λ uses. uses.program.now ≡ program.now) }
    {
        let mut all = Vec::new(alloc);
        uses_in_processes(program, &program.processes, &mut all)?;
        let joins = joins_among(alloc, &all)?;
        Ok(Uses {
            program,
            all,
            joins,
        })
    }

    /// All uses in the order of the text.
    pub(crate) fn all(&self) -> &[Use<'a>]
        ensures { all_held result.now ≡ summaries (tree self.now.program.now) }
    {
        &self.all
    }

    /// Whether a process joins the conversation of this name somewhere.
    pub(crate) fn is_joined(&self, process: usize, name: &[u8]) -> bool
        ensures { result ≡ list_any (joins_in process name.now) (uses_of (tree self.now.program.now)) }
    {
        is_joined(&self.joins, process, name)
    }

    /// The conversation right around that of this name: the innermost around the first `converse` for it.
    pub fn parent(&self, name: &[u8]) -> Option<usize>
        ensures { result ≡ parent_named (tree self.now.program.now) (first_in_processes name.now (tree self.now.program.now).processes) }
    {
        first_within(&self.joins, name)
    }

    /// How many alternates a conversation has: those of the first `converse` for it.
    pub fn alternates(&self, number: usize) -> Option<usize>
        ensures { result ≡ alternates_of (tree self.now.program.now) number }
    {
        first_alternates(&self.joins, number)
    }
}
