//! The listing of a small code, written to a sink in memory.

use crate::names;
use crate::names::{only, only_text};
use rb_base::{Edition, Memory, Names};
use rb_code::code::{Code, ProcessCode};
use rb_code::instr::{Instr, Spot};
use rb_code::listing::listing;
use rb_outside::MemorySink;
use std::alloc::Global;

// A process `p`.
fn names_of_one(alloc: Global) -> Result<Names, Memory> {
    let processes = only(alloc, names::process(alloc, b"p")?)?;
    Ok(Names {
        processes,
        channels: Vec::new(alloc),
        conversations: Vec::new(alloc),
    })
}

fn process(alloc: Global, start: u32) -> ProcessCode {
    ProcessCode {
        start,
        words: 1,
        channels: Vec::new(alloc),
        procedures: Vec::new(alloc),
    }
}

fn instrs(alloc: Global) -> Result<Vec<Instr>, Memory> {
    let instrs = [
        Instr::Push(-1),
        Instr::Store(Spot::Global(0)),
        Instr::Text(0),
        Instr::Load(Spot::Local(7)),
        Instr::Text(9),
        Instr::Jump(4_294_967_295),
    ];
    Ok(Vec::from_slice(alloc, &instrs)?)
}

fn processes(alloc: Global) -> Result<Vec<ProcessCode>, Memory> {
    let mut processes = only(alloc, process(alloc, 0))?;
    processes.push(process(alloc, 2))?;
    Ok(processes)
}

// A process that prints `x 1`, and two instructions that name what is not there.
fn small_code(alloc: Global) -> Result<Code, Memory> {
    let instrs = instrs(alloc)?;
    let processes = processes(alloc)?;
    let texts = only_text(alloc, b"x")?;
    let names = names_of_one(alloc)?;
    Ok(Code {
        edition: Edition::First,
        instrs,
        processes,
        blocks: Vec::new(alloc),
        channels: Vec::new(alloc),
        texts,
        names,
    })
}

const LISTED: &[u8] =
    b"process p\n0 push -1\n1 store g 0\nprocess \n2 text \"x\"\n3 load l 7\n4 text \"\"\n5 jump 4294967295\n";

// Whether the listing, with this room for it, goes so and leaves these bytes.
fn is_listed(alloc: Global, code: &Code, room: usize, goes_well: bool, bytes: &[u8]) -> bool {
    match MemorySink::new(alloc, room, Vec::new(alloc)) {
        Ok(mut out) => listing(code, &mut out).is_ok() == goes_well && out.bytes() == bytes,
        Err(_) => false,
    }
}

fn lists(alloc: Global) -> bool {
    match small_code(alloc) {
        Ok(code) => {
            is_listed(alloc, &code, 128, true, LISTED)
                && is_listed(alloc, &code, 15, false, b"process p\n0 pus")
        }
        Err(_) => false,
    }
}

#[test]
fn lists_what_names_nothing(rt: HostRuntime) {
    assert!(rt; lists(rt.alloc()));
}
