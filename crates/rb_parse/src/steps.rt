//! Steps that many parts have in common. What cannot be handed on is let go.
ghost use Rattle.std.specs.Prelude.{◌≡◌, ◌<◌, ◌++◌, ◌∷◌, [], length, IfOk, IfErr, OnOk};
ghost use Rattle.rb_lex.specs.Tokens.{Lexeme};
ghost use Rattle.rb_grammar.specs.Machine.{Advances};
ghost use Rattle.rb_grammar.specs.Reading.{IsNotTaken};

use rb_grammar::{Cursor, Stop, Terminal};
use rb_syntax::Expr;
use std::alloc::Global;

/// Takes the token that closes what was read, which is to be of this terminal, and hands on what was read.
pub(crate) fn closed<T: Drop>(
    cursor: &mut Cursor<'_>,
    read: T,
    terminal: Terminal,
) -> Result<T, Stop>
    ensures same { IfOk result (λ handed. handed ≡ read) }
    ensures taken { OnOk result ((token : Lexeme) × Advances terminal token cursor.old.point cursor.new.point) }
    ensures err { IfErr result (IsNotTaken terminal cursor.old cursor.new) }
    ensures ending { cursor.new.ending ≡ cursor.old.ending }
    ensures shorter { OnOk result (length cursor.new.point.left < length cursor.old.point.left) }
{
    cursor.take(terminal)?;
    Ok(read)
}

/// One entry more at the end of a list.
pub(crate) fn append<T: Drop>(list: &mut Vec<T>, entry: T) -> Result<(), Stop>
    ensures items { OnOk result (list.new.items ≡ list.old.items ++ entry ∷ []) }
    ensures memory { IfErr result (λ stop. stop ≡ Stop.Memory) }
{
    list.push(entry)?;
    Ok(())
}

/// An expression on the heap.
pub(crate) fn boxed<'a>(alloc: Global, value: Expr<'a>) -> Result<Box<Expr<'a>>, Stop>
    ensures ok { IfOk result (λ held. held.value ≡ value.entry) }
    ensures memory { IfErr result (λ stop. stop ≡ Stop.Memory) }
{
    let held = Box::new(alloc, value)?;
    Ok(held)
}
