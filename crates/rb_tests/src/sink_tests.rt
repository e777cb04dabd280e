//! Shelves and sinks in memory, with calls that fail, and a buffer in front of a sink.

ghost use Rattle.std.specs.Prelude.{◌<◌};

use crate::pieces::answers;
use crate::rows::cut;
use rb_outside::{Buffered, Memory, MemoryShelf, MemorySink, Shelf, Sink, put_all, put_number};
use std::alloc::{AllocError, Global};

// Two files, and a third with the name of the first; of the calls the one with this number fails.
fn shelf(alloc: Global, failing: u64, most: usize) -> Result<MemoryShelf, AllocError>
    requires { 0 < most }
{
    let mut rest = b"a~abcde~empty~~a~other~".as_slice();
    let mut files = Vec::new(alloc);
    for _ in 0..3 {
        let (name, after) = cut(rest);
        let (text, after) = cut(after);
        files.push((Vec::from_slice(alloc, name)?, Vec::from_slice(alloc, text)?))?;
        rest = after;
    }
    let failing = Vec::from_slice(alloc, &[failing])?;
    Ok(MemoryShelf::limited(files, failing, most))
}

fn gives(alloc: Global, name: &str, failing: u64, most: usize, want: &[u8]) -> bool
    requires { 0 < most }
{
    match shelf(alloc, failing, most) {
        Ok(mut shelf) => answers(&mut shelf, name, want),
        Err(_) => false,
    }
}

fn gives_each(alloc: Global) -> bool {
    gives(alloc, "a", 9, 9, b"0410")
        && gives(alloc, "a", 2, 1, b"01x1")
        && gives(alloc, "a", 0, 1, b"xxxx")
        && gives(alloc, "empty", 1, 1, b"0x0")
        && gives(alloc, "other", 9, 9, b"xxxx")
}

// However many starts there were, the next one goes well.
fn starts_go_on(alloc: Global) -> bool {
    let Ok(mut shelf) = shelf(alloc, u64::MAX, usize::MAX) else {
        return false;
    };
    for _ in 0..1_000 {
        if shelf.start("a").is_err() {
            return false;
        }
    }
    answers(&mut shelf, "a", b"0410")
}

#[test]
fn shelf_answers(rt: HostRuntime) {
    assert!(rt; gives_each(rt.alloc()) && starts_go_on(rt.alloc()));
}

// A sink of which the call with this number fails.
fn sink(alloc: Global, room: usize, failing: u64, most: usize) -> Result<MemorySink, Memory>
    requires { 0 < most }
{
    let failing = Vec::from_slice(alloc, &[failing])?;
    MemorySink::limited(alloc, room, failing, most)
}

// Which of three puts go well.
fn put_three(sink: &mut MemorySink) -> [bool; 3] {
    [
        put_all(sink, b"ab").is_ok(),
        put_number(sink, -170).is_ok(),
        put_all(sink, b"end").is_ok(),
    ]
}

// Whether a sink takes these of three puts, and then has these bytes.
fn takes(
    alloc: Global,
    room: usize,
    failing: u64,
    most: usize,
    well: [bool; 3],
    bytes: &[u8],
) -> bool
    requires { 0 < most }
{
    match sink(alloc, room, failing, most) {
        Ok(mut sink) => put_three(&mut sink) == well && sink.bytes() == bytes,
        Err(_) => false,
    }
}

#[test]
fn sink_answers(rt: HostRuntime) {
    let alloc = rt.alloc();
    assert!(rt;
        takes(alloc, 9, 9, 9, [true, true, true], b"ab-170end")
            && takes(alloc, 9, 9, 1, [true, true, true], b"ab-170end")
            && takes(alloc, 4, 9, 9, [true, false, false], b"ab-1")
            && takes(alloc, 9, 1, 9, [true, false, true], b"abend")
            && takes(alloc, 9, 4, 1, [true, false, true], b"ab-1end")
            && takes(alloc, 0, 0, 9, [false, false, false], b"")
    );
}

// Whether a text is taken, the flush after it goes so, and the sink has these bytes then.
fn passes_on(
    buffered: &mut Buffered<MemorySink>,
    text: &[u8],
    goes_well: bool,
    want: &[u8],
) -> bool {
    put_all(buffered, text).is_ok()
        && buffered.flush().is_ok() == goes_well
        && buffered.sink().bytes() == want
}

fn goes_on(alloc: Global) -> bool {
    let Ok(sink) = sink(alloc, 6, 1, usize::MAX) else {
        return false;
    };
    match Buffered::new(alloc, sink) {
        Ok(mut buffered) => {
            passes_on(&mut buffered, b"ab", true, b"ab")
                && passes_on(&mut buffered, b"cd", false, b"ab")
                && passes_on(&mut buffered, b"ef", true, b"abcdef")
                && passes_on(&mut buffered, b"gh", false, b"abcdef")
        }
        Err(_) => false,
    }
}

#[test]
fn buffer_passes_on(rt: HostRuntime) {
    assert!(rt; goes_on(rt.alloc()));
}
