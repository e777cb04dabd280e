//! The texts of a few trials.

use rb_make::make;
use std::alloc::Global;

const SOURCE_0: &[u8] = b"program trial;
channel c1 from p1 to p2 size 4;
conversation C (p1, p2);
process p1 { var i; var x;
while i < 1 { i := i + 1;
converse C ensure x % 3 <> 0 within 1000 by { x := x + i; ensure x > prior x within 20 by { x := x + 0; } else error; send c1 x; }
else by { x := 3 * i + 1; send c1 x; } else error;
print x; } }
process p2 { var i; var x;
while i < 1 { i := i + 1;
converse C ensure x % 3 <> 0 within 1000 by { receive c1 x; x := x + 2; }
else by { receive c1 x; } else error;
print x; } }
end.
";

const END_OF_SOURCE_30: &[u8] = b"else by { receive c30 x; send c31 x; } else error;
print x; } }
process p32 { var i; var x;
while i < 1 { i := i + 1;
converse C ensure x % 3 <> 0 within 1000 by { receive c31 x; x := x + 32; }
else by { receive c31 x; } else error;
print x; } }
end.
";

// Whether a trial has a source of this length and with this end, and this schedule.
fn ends_as(alloc: Global, number: u64, length: usize, end: &[u8], schedule: &[u8]) -> bool {
    match make(alloc, number) {
        Ok((source, made)) => {
            source.len() == length
                && source.as_slice().ends_with(end)
                && made.as_slice() == schedule
        }
        Err(_) => false,
    }
}

#[test]
fn makes_texts(rt: HostRuntime) {
    let alloc = rt.alloc();
    assert!(rt; ends_as(alloc, 0, SOURCE_0.len(), SOURCE_0, b"all 76\n"));
    assert!(rt;
        ends_as(alloc, 30, 7838, END_OF_SOURCE_30, b"all 316\n")
            && ends_as(alloc, 34, 1215, b"", b"all 200\n")
            && ends_as(alloc, 1549, 7870, b"", b"all 15800\n")
            && ends_as(alloc, u64::MAX, 4133, b"", b"all 196\n")
    );
}
