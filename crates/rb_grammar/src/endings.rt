//! How a receipt ends, and how the alternates of a recovery block do.
ghost use Rattle.std.specs.Prelude.{◌≡◌, ◌<◌, length, false, IfOk, IfErr, OnOk};
ghost use Rattle.rb_grammar.specs.Finding.{may_not_wait};
ghost use Rattle.rb_grammar.specs.Machine.{Reads, fits, look};
ghost use Rattle.rb_grammar.specs.Parts.{Part};
ghost use Rattle.rb_grammar.specs.Reading.{IsNotRead};
ghost use Rattle.rb_syntax.specs.Tree.{NoAlternate};

use crate::cursor::Cursor;
use crate::stop::Stop;
use crate::terminal::Terminal;
use rb_base::Edition;

/// Whether a receipt goes on with a block here.
pub fn may_not_wait(edition: Edition, first: Option<Terminal>) -> bool
    ensures { result ≡ may_not_wait edition first }
{
    match edition {
        Edition::First => false,
        Edition::Second => matches!(first, Some(Terminal::Else)),
    }
}

/// Reads what follows the last alternate and its `else`.
pub fn read_no_alternate<'a>(cursor: &mut Cursor<'a>) -> Result<(), Stop>
    requires { fits (look cursor.old.point.left) Terminal.By ≡ false }
    ensures ok { (edition : Edition) → IfOk result (λ _. Reads (Part.OtherAlternates edition) NoAlternate cursor.old.point cursor.new.point) }
    ensures err { (edition : Edition) → IfErr result (IsNotRead (Part.OtherAlternates edition) cursor.old cursor.new) }
    ensures ending { cursor.new.ending ≡ cursor.old.ending }
    ensures shorter { OnOk result (length cursor.new.point.left < length cursor.old.point.left) }
{
    cursor.take(Terminal::Error)?;
    cursor.take(Terminal::Semicolon)?;
    Ok(())
}
