//! The steps that open blocks and calls, and the acceptance test.

ghost use Rattle.std.specs.Prelude.{◌≡◌, [], map, option_map, Some};
ghost use Rattle.rb_syntax.specs.Plain.{body, expression, identifier, otherwise, procedure_declaration, recovery_block, tree};
ghost use Rattle.rb_syntax.specs.Tree.{Loop};
ghost use Rattle.std.specs.List.{find};
ghost use Rattle.rb_meaning.specs.Environment.{rest_of, same_name};
ghost use Rattle.rb_meaning.specs.State.{Perform, StartOf};
ghost use Rattle.rb_meaning.specs.Step.{alternate_number, alternates_in, calls_with, chooses, former, invokes, present_value, pushes, pushes_else, repeats, starts_body, test_in, values_in};
ghost use Rattle.rb_meaning.specs.Value.{and_then, value};
ghost use Rattle.rb_walk.specs.Comes.{Comes, Gives, Judges};
ghost use Rattle.rb_walk.specs.Items.{StandsFirst};
ghost use Rattle.rb_meaning.specs.Groups.{procedure_named};
ghost use Rattle.rb_walk.specs.States.{state_of};

use crate::counter::Counters;
use crate::environment::Environment;
use crate::halt::Halt;
use crate::items::{Item, put_first};
use crate::state::State;
use crate::steps::present;
use crate::value::value_of;
use rb_base::{Cause, Edition, MOST_OPEN_CALLS};
use rb_syntax::{Block, Expr, Name, Procedure, Program, Recovery};
use std::alloc::Global;

impl<'t, 'a> State<'t, 'a> {
    /// A block begins: its frame is pushed, and its statements and its end come before what is left.
    pub fn push_block(
        &mut self,
        alloc: Global,
        edition: Edition,
        block: &'t Block<'a>,
    ) -> Result<(), Halt>
        ensures { Comes (pushes edition (body block.now) (state_of self.old).items (state_of self.old)) (state_of self.new) result }
    {
        if self
            .environment
            .overflows(&block.vars, edition.most_words() as usize)
        {
            return Err(Halt::Stuck);
        }
        self.environment.push_frame(alloc, &block.vars)?;
        put_first(&mut self.items, Item::EndBlock)?;
        put_first(&mut self.items, Item::Statements(block.body.as_slice()))?;
        Ok(())
    }

    /// An `else` begins its block; without one the process goes on.
    pub fn push_else(
        &mut self,
        alloc: Global,
        edition: Edition,
        block: &'t Option<Block<'a>>,
    ) -> Result<(), Halt>
        ensures { Comes (pushes_else edition (otherwise block.now) (state_of self.old).items (state_of self.old)) (state_of self.new) result }
    {
        match block {
            None => Ok(()),
            Some(block) => self.push_block(alloc, edition, block),
        }
    }

    /// An `if` begins its block where its test is not 0, and else its `else`.
    pub fn choose(
        &mut self,
        alloc: Global,
        edition: Edition,
        test: &Expr<'a>,
        block: &'t Block<'a>,
        other: &'t Option<Block<'a>>,
    ) -> Result<(), Halt>
        ensures { Comes (and_then (present_value (state_of self.old).environment (expression test.now))
            (chooses edition (body block.now) (otherwise other.now) (state_of self.old).items (state_of self.old))) (state_of self.new) result }
    {
        if present(&self.environment, test)? == 0 {
            self.push_else(alloc, edition, other)
        } else {
            self.push_block(alloc, edition, block)
        }
    }

    /// A `while`, which stands first, begins its block where its test is not 0, and comes again after it; else it is over.
    pub fn repeat(
        &mut self,
        alloc: Global,
        edition: Edition,
        test: &Expr<'a>,
        block: &'t Block<'a>,
    ) -> Result<(), Halt>
        requires { StandsFirst (Perform (Loop (expression test.now) (body block.now))) (state_of self.old).items }
        ensures { Comes (and_then (present_value (state_of self.old).environment (expression test.now))
            (repeats edition (expression test.now) (body block.now) (rest_of (state_of self.old).items) (state_of self.old))) (state_of self.new) result }
    {
        if present(&self.environment, test)? == 0 {
            self.skip();
            Ok(())
        } else {
            self.push_block(alloc, edition, block)
        }
    }

    /// A call of a procedure of its process, with these arguments.
    pub fn invoke(
        &mut self,
        alloc: Global,
        program: &'t Program<'a>,
        name: &Name<'a>,
        arguments: &[Expr<'a>],
    ) -> Result<(), Halt>
        ensures { Comes
            (invokes (tree program.now) (identifier name.now) (map expression arguments.now) (state_of self.old).items (state_of self.old))
            (state_of self.new) result }
    {
        let values = values_of(alloc, &self.environment, arguments)?;
        match procedure_named(program, self.number, name.text) {
            None => Ok(()),
            Some(procedure) => self.call(alloc, program.edition, procedure, &values),
        }
    }

    // The call of a procedure with these values.
    fn call(
        &mut self,
        alloc: Global,
        edition: Edition,
        procedure: &'t Procedure<'a>,
        values: &[i64],
    ) -> Result<(), Halt>
        ensures { Comes
            (calls_with edition (Some (procedure_declaration procedure.now)) (state_of self.old).items (state_of self.old) values.now)
            (state_of self.new) result }
    {
        if self.environment.open_calls() >= MOST_OPEN_CALLS as usize {
            return Err(Halt::Stuck);
        }
        let block = &procedure.block;
        let most = edition.most_words() as usize;
        if self
            .environment
            .call_overflows(&procedure.params, values, &block.vars, most)
        {
            return Err(Halt::Stuck);
        }
        self.environment
            .push_call(alloc, &procedure.params, values, &block.vars)?;
        put_first(&mut self.items, Item::EndCall)?;
        put_first(&mut self.items, Item::Statements(block.body.as_slice()))?;
        Ok(())
    }

    /// The start of an alternate of the recovery block that stands first: its block begins, and the acceptance test comes behind it.
    pub fn start(
        &mut self,
        alloc: Global,
        edition: Edition,
        block: &'t Recovery<'a>,
        alternate: u32,
    ) -> Result<(), Halt>
        requires { StandsFirst (StartOf (recovery_block block.now)) (state_of self.old).items }
        ensures { Comes (starts_body edition (recovery_block block.now) (rest_of (state_of self.old).items) (state_of self.old)
            (alternate_number alternate (alternates_in (recovery_block block.now)))) (state_of self.new) result }
    {
        let Some(body) = alternate_of(block, alternate) else {
            return Err(Halt::Stuck);
        };
        self.skip();
        put_first(&mut self.items, Item::Test(block))?;
        self.push_block(alloc, edition, body)
    }

    /// The acceptance test of a recovery block, given the variables at the innermost recovery point, if there is one: it holds, or the run
    /// is stuck.
    pub fn judge(&self, block: &Recovery<'a>, prior: Option<&Environment<'a>>) -> Result<(), Halt>
        ensures { Judges
            (value (state_of self.now).environment
            (former (state_of self.now).environment (option_map (λ e. e.now) prior.entry)) []
            (test_in (recovery_block block.now))) result }
    {
        match tested(&self.environment, prior, &block.test) {
            Err(_) => Err(Halt::Stuck),
            Ok(value) => if value == 0 { Err(Halt::Stuck) } else { Ok(()) },
        }
    }
}

// The value of an acceptance test, given the variables at the innermost recovery point, if there is one.
fn tested<'a>(
    environment: &Environment<'a>,
    prior: Option<&Environment<'a>>,
    test: &Expr<'a>,
) -> Result<i64, Cause>
    ensures { result ≡ value environment.now (former environment.now (option_map (λ e. e.now) prior.entry)) [] (expression test.now) }
{
    let prior = prior.unwrap_or(environment);
    value_of(environment, prior, &Counters::None, test)
}

// The values of a call's arguments, from left to right.
fn values_of(
    alloc: Global,
    environment: &Environment<'_>,
    arguments: &[Expr<'_>],
) -> Result<Vec<i64>, Halt>
    ensures { Gives (λ values. values.items) (values_in environment.now (map expression arguments.now)) result }
{
    let mut values = Vec::with_capacity(alloc, arguments.len())?;
    for argument in arguments {
        values.push_reserved(present(environment, argument)?);
    }
    Ok(values)
}

// The procedure of a process by its name.
fn procedure_named<'t, 'a>(
    program: &'t Program<'a>,
    process: usize,
    name: &[u8],
) -> Option<&'t Procedure<'a>>
    ensures { option_map (λ procedure. procedure_declaration procedure.now) result ≡ procedure_named (tree program.now) process name.now }
{
    if process >= program.processes.len() {
        return None;
    }
    procedure_among(&program.processes[process].procedures, name)
}

// The first of these procedures with this name.
fn procedure_among<'t, 'a>(
    procedures: &'t [Procedure<'a>],
    name: &[u8],
) -> Option<&'t Procedure<'a>>
    ensures { option_map (λ procedure. procedure.now) result ≡ find (λ procedure. same_name procedure.name.text.now name.now) procedures.now }
{
    let mut rest = procedures;
    while let [procedure, others @ ..] = rest {
        if procedure.name.text == name {
            return Some(procedure);
        }
        rest = others;
    }
    None
}

// The block of an alternate by its number, counted from 1.
fn alternate_of<'t, 'a>(block: &'t Recovery<'a>, alternate: u32) -> Option<&'t Block<'a>>
    ensures { option_map (λ block. body block.now) result ≡ alternate_number alternate (alternates_in (recovery_block block.now)) }
{
    let place = (alternate as usize).checked_sub(1)?;
    block.alternates.get(place)
}
