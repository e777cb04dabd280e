//! Processes: their words and their addresses.

ghost use Rattle.std.specs.Prelude.{◌≡◌, ◌↔◌, ◌<◌, IsTrue, map};
ghost use Rattle.std.specs.List.{All, AllByRecursion};
ghost use Rattle.rb_code.specs.Instructions.Plain.{code as plain, part as plain_part};
ghost use Rattle.rb_code.specs.SoundCode.WellFormed.{IsPart};
ghost use Rattle.rb_trace.specs.Fitting.{LiesWithin};
ghost use Rattle.rb_lists.specs.Variables.{LieInParts};

use crate::rule::{Allows, Below, all_allowed};
use rb_base::{ProcessNames, Variable};
use rb_code::{Code, ProcedureCode, ProcessCode};

/// Whether each process has words within its limit, and addresses of instructions.
pub(crate) fn are_parts(code: &Code) -> bool
    ensures { IsTrue result ↔ All (λ process. IsPart (plain code.now) (plain_part process)) code.now.processes.items }
{
    all_allowed(code, &code.processes)
}

impl Allows<ProcessCode> for Code {
    ghost Law = { λ code process. IsPart (plain code) (plain_part process) };

    fn allows(&self, process: &ProcessCode) -> bool {
        let instrs = self.instrs.len();
        process.words <= self.edition.most_words()
            && (process.start as usize) < instrs
            && all_allowed(&Below(instrs), &process.procedures)
    }
}

impl Allows<ProcedureCode> for Below {
    ghost Law = { λ below one. one.start < below.0 };

    fn allows(&self, procedure: &ProcedureCode) -> bool {
        (procedure.start as usize) < self.0
    }
}

/// Whether what is printed of each process lies within its words; false where these are not as many.
pub(crate) fn variables_lie(names: &[ProcessNames], processes: &[ProcessCode]) -> bool
    ensures { IsTrue result ↔ LieInParts names.now (map plain_part processes.now) }
{
    let mut left = names;
    let mut parts = processes;
    'processes: while let [name, others @ ..] = left {
        let [part, after @ ..] = parts else {
            return false;
        };
        if !lie_within(part.words, &name.variables) {
            return false;
        }
        left = others;
        parts = after;
    }
    parts.is_empty()
}

fn lie_within(words: u32, variables: &[Variable]) -> bool
    ensures { IsTrue result ↔ AllByRecursion (LiesWithin words) variables.now }
{
    all_allowed(&Words(words), variables)
}

// So many words of a process.
#[derive(Clone, Copy)]
struct Words(u32);

impl Allows<Variable> for Words {
    ghost Law = { λ words. LiesWithin words.0 };

    fn allows(&self, variable: &Variable) -> bool {
        u64::from(variable.at) + u64::from(variable.size.unwrap_or(1)) <= u64::from(self.0)
    }
}
