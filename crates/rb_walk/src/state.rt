//! The state of a process in a plain run, over the tree: what is left of its text, its variables, what it sent and took, and the
//! lines that it holds.

ghost use Rattle.std.specs.Prelude.{◌≡◌, [], length, map, replicate, reverse, IfOk, OnOk};
ghost use Rattle.rb_syntax.specs.Plain.{commands_of, process_declaration, recovery_block, tree};
ghost use Rattle.rb_meaning.specs.Environment.{rest_of};
ghost use Rattle.rb_meaning.specs.State.{Perform, continue_with, performed, settle, with_held};
ghost use Rattle.rb_meaning.specs.Step.{enter};
ghost use Rattle.rb_meaning.specs.Meaning.{message_number, opening_state, sent_on, taken_on};
ghost use Rattle.rb_syntax.specs.Tree.{Recovering};
ghost use Rattle.rb_walk.specs.Items.{items_of, IsFirst, StandsFirst};
ghost use Rattle.rb_walk.specs.States.{state_of};

use crate::environment::Environment;
use crate::held::Held;
use crate::items::{First, Item, first_of, put_first, skip};
use rb_base::Memory;
use rb_syntax::{Process as Declaration, Program, Recovery, Statement};
use std::alloc::Global;

/// The state of a process, as contracts see it over the tree; its kept turns are not noted.
#[derive(Drop)]
pub struct State<'t, 'a> {
    pub number: usize,
    pub items: Vec<Item<'t, 'a>>,
    pub environment: Environment<'a>,
    pub sent: Vec<Vec<i64>>,
    pub taken: Vec<usize>,
    pub held: Held,
}

impl<'t, 'a> State<'t, 'a> {
    /// Process number `number` before the first turn: its whole text is left, its variables are 0, and nothing was sent or taken.
    pub fn new(
        alloc: Global,
        program: &'t Program<'a>,
        number: usize,
        process: &'t Declaration<'a>,
    ) -> Result<Self, Memory>
        ensures { IfOk result (λ state. state_of state ≡ opening_state (tree program.now) number (process_declaration process.now)) }
    {
        let items = whole_text(alloc, &process.body)?;
        let environment = Environment::new(alloc, &process.vars)?;
        let channels = program.channels.len();
        let sent = nothing_sent(alloc, channels)?;
        let taken = Vec::from_elem(alloc, 0, channels)?;
        Ok(State {
            number,
            items,
            environment,
            sent,
            taken,
            held: Held::new(alloc),
        })
    }

    /// What stands first.
    pub fn first(&self) -> First<'t, 'a>
        ensures { IsFirst (state_of self.now).items result }
    {
        first_of(&self.items)
    }

    /// Takes away what stands first.
    pub fn skip(&mut self)
        ensures { state_of self.new ≡ continue_with (rest_of (state_of self.old).items) (state_of self.old) }
    {
        skip(&mut self.items);
    }

    /// The start of the first alternate takes the place of the recovery block that stands first.
    pub fn enter(&mut self, block: &'t Recovery<'a>) -> Result<(), Memory>
        requires { StandsFirst (Perform (Recovering (recovery_block block.now))) (state_of self.old).items }
        ensures { OnOk result (state_of self.new ≡ enter (state_of self.old)) }
    {
        self.skip();
        put_first(&mut self.items, Item::Start(block))
    }

    /// Takes away the ends of blocks and calls that stand first, each with its frame or its call.
    pub fn settle(&mut self)
        ensures { state_of self.new ≡ settle (state_of self.old) }
    {
        'ends: loop {
            match self.first() {
                First::BlockEnd => {
                    self.skip();
                    self.environment.pop_frame();
                }
                First::CallEnd => {
                    self.skip();
                    self.environment.pop_call();
                }
                _ => return,
            }
        }
    }

    /// How many values were sent on a channel.
    pub fn sent_on(&self, channel: usize) -> usize
        ensures { result ≡ length (sent_on (state_of self.now) channel) }
    {
        match self.sent.get(channel) {
            Some(values) => values.len(),
            None => 0,
        }
    }

    /// How many values were taken from a channel.
    pub fn taken_on(&self, channel: usize) -> usize
        ensures { result ≡ taken_on (state_of self.now) channel }
    {
        self.taken.get(channel).copied().unwrap_or(0)
    }

    /// Value number n of those that were sent on a channel; 0 where none was sent.
    pub fn message(&self, channel: usize, n: usize) -> i64
        ensures { result ≡ message_number (state_of self.now) channel n }
    {
        match self.sent.get(channel) {
            Some(values) => values.get(n).copied().unwrap_or(0),
            None => 0,
        }
    }

    /// Holds no line any more.
    pub fn release(&mut self)
        ensures { state_of self.new ≡ with_held [] (state_of self.old) }
    {
        self.held.clear();
    }
}

// All statements of a process are left.
fn whole_text<'t, 'a>(
    alloc: Global,
    statements: &'t [Statement<'a>],
) -> Result<Vec<Item<'t, 'a>>, Memory>
    ensures { IfOk result (λ items. items_of (reverse items.items) ≡ performed (commands_of statements.now) []) }
{
    let mut items = Vec::new(alloc);
    items.push(Item::Statements(statements))?;
    Ok(items)
}

// Nothing was sent on any of so many channels.
fn nothing_sent(alloc: Global, channels: usize) -> Result<Vec<Vec<i64>>, Memory>
    ensures { IfOk result (λ sent. map (λ values. values.items) sent.items ≡ replicate channels []) }
{
    let mut sent = Vec::with_capacity(alloc, channels)?;
    for _ in 0..channels {
        sent.push_reserved(Vec::new(alloc));
    }
    Ok(sent)
}
