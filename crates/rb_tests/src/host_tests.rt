//! Files of the host that are read, and output to terminals that take few bytes at a time.

use crate::pieces::answers;
use rb_outside::{HostShelf, HostSink, put_all};
use std::cell::Cell;
use std::fmt::Display;
use std::{fs, io};

const NAME: &str = "rb_outside_test_file";

// A folder can be opened, and reading it is a fault.
#[test]
fn files_are_read(rt: HostRuntime) {
    assert!(rt; fs::write(&rt, NAME, "abcde").is_ok());
    let mut shelf = HostShelf::new(&rt);
    assert!(rt;
        answers(&mut shelf, "no such file", b"xxxx")
            && answers(&mut shelf, NAME, b"0410")
            && answers(&mut shelf, "/", b"0xxx")
    );
    assert!(rt; fs::remove_file(&rt, NAME).is_ok());
}

#[test]
fn line_is_written(rt: HostRuntime) {
    let mut sink = HostSink::new(&rt);
    assert!(rt; put_all(&mut sink, b"a line\n").is_ok());
}

// A terminal that takes two bytes at a time, and so many in all.
#[derive(Drop)]
struct Narrow {
    free: Cell<usize>,
}

impl Print for Narrow {
    fn print<D: Display + Drop>(&self, _value: D) -> io::Result<()> {
        Err(io::Error::from(io::ErrorKind::Unsupported))
    }

    fn println<D: Display + Drop>(&self, _value: D) -> io::Result<()> {
        Err(io::Error::from(io::ErrorKind::Unsupported))
    }

    fn write_all(&self, _bytes: &[u8]) -> io::Result<()> {
        Err(io::Error::from(io::ErrorKind::Unsupported))
    }

    fn write_some(&self, bytes: &[u8]) -> io::Result<usize> {
        let n = self.free.get().min(2).min(bytes.len());
        self.free.set(self.free.get().saturating_sub(n));
        Ok(n)
    }
}

// Whether a terminal with this room takes five bytes or not, and is left with so much room.
fn answers_so(room: usize, goes_well: bool, left: usize) -> bool {
    let narrow = Narrow {
        free: Cell::new(room),
    };
    let answer = put_all(&mut HostSink::new(&narrow), b"abcde");
    answer.is_ok() == goes_well && narrow.free.get() == left
}

#[test]
fn short_writes_go_on(rt: HostRuntime) {
    assert!(rt; answers_so(9, true, 4) && answers_so(5, true, 0) && answers_so(4, false, 0));
}
