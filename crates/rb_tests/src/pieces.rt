//! What a shelf answers, whichever it is.
ghost use Rattle.std.specs.Prelude.{◌≡◌, true};
ghost use Rattle.rb_outside.specs.Outside.{HasMore};

use rb_outside::Shelf;

/// Whether one start and three pieces of up to four bytes answer so: how many bytes came, or `x` for a fault. No piece is asked for behind one
/// that told the end of the file.
pub(crate) fn answers<S: Shelf>(shelf: &mut S, name: &str, want: &[u8]) -> bool {
    let Ok(()) = shelf.start(name) else {
        return want == b"xxxx".as_slice();
    };
    let (first, more) = next(shelf);
    if !more {
        return want == [b'0', first].as_slice();
    }
    let (second, more) = next(shelf);
    if !more {
        return want == [b'0', first, second].as_slice();
    }
    let (third, _) = next(shelf);
    want == [b'0', first, second, third].as_slice()
}

// What the next piece answers, and whether there may be more behind it.
fn next<S: Shelf>(shelf: &mut S) -> (u8, bool)
    requires { HasMore (S.starts shelf.old) }
    ensures { result.1 ≡ true → HasMore (S.starts shelf.new) }
{
    let mut buffer = [0; 4];
    match shelf.piece(&mut buffer) {
        Ok(0) => (b'0', false),
        Ok(count) => (b'0' + count.min(9) as u8, true),
        Err(_) => (b'x', true),
    }
}
