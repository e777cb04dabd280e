//! Tests of held lines: they come out in order, and fit exactly in the room for them.

ghost use Rattle.std.specs.Prelude.{◌≡◌, [], drop};

use rb_base::limits::MOST_HELD_BYTES;
use rb_hold::Hold;
use std::alloc::Global;

// Takes the next line, and tells whether it was this one.
fn next_is(hold: &mut Hold, line: &[u8]) -> bool
    ensures { hold.new ≡ record hold.old { released = drop 1 hold.old.released } }
{
    match hold.next_line() {
        Some(next) => next == line,
        None => false,
    }
}

// Whether no line waits.
fn none_is_next(hold: &mut Hold) -> bool
    ensures { hold.new ≡ record hold.old { released = drop 1 hold.old.released } }
{
    hold.next_line().is_none()
}

// Whether what was released, and no more, is lent in order, and then what is released later.
fn lends_each(hold: &mut Hold) -> bool
    requires { hold.old ≡ record { held = []; released = [] } }
{
    if !hold.add(b"one") {
        return false;
    }
    if !hold.add(b"") {
        return false;
    }
    if !hold.add(b"three") {
        return false;
    }
    if hold.length() != 11 {
        return false;
    }
    hold.cut_to(5);
    hold.release();
    if hold.length() != 0 || !next_is(hold, b"one") || !next_is(hold, b"") {
        return false;
    }
    if !none_is_next(hold) || !hold.add(b"four") {
        return false;
    }
    hold.release();
    next_is(hold, b"four") && none_is_next(hold)
}

// Whether two lines that wait are forgotten, and one is held after them.
fn forgets_both(hold: &mut Hold) -> bool
    requires { hold.old ≡ record { held = []; released = [] } }
{
    if !hold.add(b"one") || !hold.add(b"") {
        return false;
    }
    hold.release();
    if hold.drop_released() != 2 || !none_is_next(hold) {
        return false;
    }
    hold.add(b"three") && hold.length() == 6
}

// Whether one line fills all of the room, with its line end, and the room is free again once the line was lent.
fn fills_its_room(hold: &mut Hold) -> bool
    requires { hold.old ≡ record { held = []; released = [] } }
{
    let longest = [b'x'; MOST_HELD_BYTES - 1];
    if !hold.add(&longest) || hold.length() != 65_536 || hold.add(b"") {
        return false;
    }
    hold.release();
    if !next_is(hold, &longest) || !none_is_next(hold) {
        return false;
    }
    hold.add(b"") && hold.length() == 1
}

// Whether the test of this number goes well on lines of its own.
fn goes_well(alloc: Global, test: u8) -> bool {
    match Hold::new(alloc) {
        Ok(mut hold) => match test {
            0 => lends_each(&mut hold),
            1 => forgets_both(&mut hold),
            _ => fills_its_room(&mut hold),
        },
        Err(_) => false,
    }
}

#[test]
fn holds_and_lends(rt: HostRuntime) {
    let alloc = rt.alloc();
    assert!(rt; goes_well(alloc, 0) && goes_well(alloc, 1) && goes_well(alloc, 2));
}
