//! What a statement that stands first asks of a turn.

ghost use Rattle.std.specs.Prelude.{◌≡◌};
ghost use Rattle.rb_syntax.specs.Tree.{Command, Tree};
ghost use Rattle.rb_syntax.specs.Plain.{command, otherwise, tree};
ghost use Rattle.rb_meaning.specs.Step.{wants, wants_receipt};
ghost use Rattle.rb_plain.specs.Turns.{IsWanted};

use rb_meaning::numbers::channel_number;
use rb_syntax::{Block, Program, Recovery, Statement};

/// What a statement asks for: room on a channel, a message, a message if one is there, a new level, or nothing.
#[derive(Clone, Copy)]
pub(crate) enum Want<'t, 'a> {
    Room(usize),
    Message(usize),
    MessageOrElse(usize),
    Level(&'t Recovery<'a>),
    Nothing,
}

#[tactic(auto, using(rb_syntax::proofs::Bridge::trees))]
/// What this statement asks for.
pub(crate) fn want_of<'t, 'a>(program: &Program<'a>, statement: &'t Statement<'a>) -> Want<'t, 'a>
    ensures { IsWanted (tree program.now) (command statement.now) result }
{
    match statement {
        Statement::Send(channel, _) => Want::Room(channel_number(program, channel.text)),
        Statement::Receive(channel, _, other) => {
            receipt(channel_number(program, channel.text), other)
        }
        Statement::Recover(block) => Want::Level(block),
        Statement::Assign(_, _) => Want::Nothing,
        Statement::Print(_) => Want::Nothing,
        Statement::If(_, _, _) => Want::Nothing,
        Statement::While(_, _) => Want::Nothing,
        Statement::Call(_, _) => Want::Nothing,
        Statement::Fail => Want::Nothing,
    }
}

// What a receipt on this channel asks for: with an `else` it may find no message.
fn receipt<'t, 'a>(channel: usize, other: &Option<Block<'a>>) -> Want<'t, 'a>
    ensures { (tree : Tree) (command : Command) → wants tree command ≡ wants_receipt channel (otherwise other.now) → IsWanted tree command result }
{
    match other {
        None => Want::Message(channel),
        Some(_) => Want::MessageOrElse(channel),
    }
}
