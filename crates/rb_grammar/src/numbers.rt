//! Numbers, of which two is a terminal of its own.
ghost use Rattle.std.specs.Prelude.{◌≡◌, ◌<◌, length, IfOk, IfErr, OnOk};
ghost use Rattle.rb_grammar.specs.Machine.{Reads};
ghost use Rattle.rb_grammar.specs.Parts.{Part};
ghost use Rattle.rb_grammar.specs.Reading.{IsNotRead};

use crate::cursor::Cursor;
use crate::stop::Stop;
use crate::terminal::Terminal;
use rb_syntax::Number;

/// Reads a number.
pub fn read_number<'a>(cursor: &mut Cursor<'a>) -> Result<Number, Stop>
    ensures ok { IfOk result (λ number. Reads Part.Number (number) cursor.old.point cursor.new.point) }
    ensures err { IfErr result (IsNotRead Part.Number cursor.old cursor.new) }
    ensures ending { cursor.new.ending ≡ cursor.old.ending }
    ensures shorter { OnOk result (length cursor.new.point.left < length cursor.old.point.left) }
{
    if cursor.stands_at(Terminal::Two) {
        let token = cursor.take(Terminal::Two)?;
        let (value, place) = (2, token.place);
        Ok(Number { value, place })
    } else {
        cursor.take_number()
    }
}
