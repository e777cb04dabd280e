//! Each row has a source and what is told of its tree.

use crate::rows::cut;
use rb_base::Edition;
use rb_parse::parse;
use rb_syntax::Program;
use std::alloc::{AllocError, Global};

const LONGEST_SOURCE: usize = 1_048_576;

// Each with its edition, how many names and recovery blocks it has, and of each process how many variables and statements. The
// last six have each form of the grammar.
const TREES: &[u8] = b"program a; process p { } end.~\
edition 1, 2 names, 0 blocks; 0 0~\
program a; # one\nprocess p {\n var x; var y;\n x := 1 + y - 2;\n print \"x is \", x, y + 1; }\nend.\n~\
edition 1, 8 names, 0 blocks; 2 2~\
program a; process p { var x; x := y; } end. # done\n ~\
edition 1, 5 names, 0 blocks; 1 1~\
program a; channel c from p to q size 04; conversation k (p, q); channel d from q to p size 1;\n\
process p { var x; var a[3]; procedure f(x, y) { var z; z := x + y; } procedure g() { } call f(1, x - 1); call g(); } process q { } end.~\
edition 1, 25 names, 0 blocks; 2 2; 0 0~\
program a; process p { a[x + 1] := -1 * 2 / 3 % 4 - (x); print \"t\", (x), -a[2]; send c x or y; receive c a[1]; fail; } end.~\
edition 1, 12 names, 0 blocks; 0 5~\
program a; process p { if x { } else { } if not x = 1 { fail; } while x < 1 and x <= 2 or x > 3 { x := 1 <> 2; } } end.~\
edition 1, 8 names, 0 blocks; 0 3~\
program a; process p { ensure x >= prior x within 3 by { ensure 1 within 1 by { } else error; } else by { } else by { } else error; converse k ensure 1 within 1 by { receive c x; } else error; } end.~\
edition 1, 7 names, 3 blocks; 0 2~\
edition 002; program a; process p { receive c x else { } receive c x; x := every i from 0 to 9: i >= 0 or i; x := (some i from 0 to 9: i) + a[sum i from 1 to 3: i]; } end.~\
edition 2, 16 names, 0 blocks; 0 4~\
program edition; process every { some := sum; } end.~\
edition 1, 4 names, 0 blocks; 0 1~";

fn tell(out: &mut String, program: &Program) -> Result<(), AllocError> {
    let edition = match program.edition {
        Edition::First => 1,
        Edition::Second => 2,
    };
    let names = program.names;
    let blocks = program.blocks;
    write!(out, "edition {edition}, {names} names, {blocks} blocks")?;
    for process in &program.processes {
        let vars = process.vars.len();
        let statements = process.body.len();
        write!(out, "; {vars} {statements}")?;
    }
    Ok(())
}

fn is_told(alloc: Global, source: &[u8], want: &[u8]) -> bool {
    if source.len() > LONGEST_SOURCE {
        return false;
    }
    let Ok(program) = parse(alloc, source) else {
        return false;
    };
    let mut out = String::new(alloc);
    tell(&mut out, &program).is_ok() && out.as_bytes() == want
}

// How many rows hold, up to the first that does not.
fn told(alloc: Global, rows: &[u8]) -> usize {
    let mut rest = rows;
    for row in 0..rows.len() {
        let (source, after) = cut(rest);
        let (want, after) = cut(after);
        if rest.is_empty() || !is_told(alloc, source, want) {
            return row;
        }
        rest = after;
    }
    rows.len()
}

fn long_sum(alloc: Global) -> Result<String, AllocError> {
    let mut source = String::from_str(alloc, "program a; process p { var x; x := 1")?;
    for _ in 0..200_000 {
        source.push_str(" + x")?;
    }
    source.push_str("; } end.")?;
    Ok(source)
}

fn tells_long_sum(alloc: Global) -> bool {
    match long_sum(alloc) {
        Ok(source) => is_told(
            alloc,
            source.as_bytes(),
            b"edition 1, 200004 names, 0 blocks; 1 1",
        ),
        Err(_) => false,
    }
}

#[test]
fn tells_trees(rt: HostRuntime) {
    let alloc = rt.alloc();
    assert!(rt; told(alloc, TREES) == 9 && tells_long_sum(alloc));
}
