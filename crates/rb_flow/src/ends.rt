//! The ends of all loops, found in one pass.

ghost use Rattle.std.specs.Prelude.{◌≡◌, ℕ, ◌<◌, ◌≤◌, ◌&&◌, nat_le, cond, map, length, get_or, Some, IfOk};
ghost use Rattle.rb_code.specs.Instructions.Plain.{code as plain, part, procedure};
ghost use Rattle.rb_code.specs.SoundCode.Sound.{end_of_loop, goes_back};
ghost use Rattle.std.specs.BTreeSet.{contains};
ghost use Rattle.std.specs.Ordering.{nat_cmp};
ghost use Rattle.rb_code.specs.WordMachine.Workspace.{part_of};
ghost use Rattle.rb_flow.specs.Flow.{is_start_among};
ghost use Rattle.rb_flow.specs.Ends.{AreStartsOf, end_in, AreEnds};
ghost use Rattle.rb_flow.specs.declared.ends.TheConstants.{MOST_INSTRUCTIONS};

use rb_base::Memory;
use rb_code::{Code, Instr, ProcedureCode, ProcessCode};
use std::alloc::Global;
use std::collections::BTreeSet;

/// The most instructions of code that is looked at: their addresses, and the one behind the last of them, are numbers of 32 bits.
pub const MOST_INSTRUCTIONS: usize = 4_294_967_295;

/// For each address one more than the end of the loop over a counter that begins there, or 0 where there is none.
pub fn ends_of_loops(alloc: Global, code: &Code, counter: u32) -> Result<Vec<u32>, Memory>
    requires few { length code.now.instrs.items ≤ MOST_INSTRUCTIONS }
    ensures { IfOk result (λ ends. (b : ℕ) → b < length code.now.instrs.items
        → end_in (get_or ends.items b 0) ≡ end_of_loop (plain code.now) counter b) }
{
    let mut ends = vec![in alloc; 0; code.instrs.len()]?;
    let mut i = code.instrs.len();
    while i > 0 {
        i -= 1;
        note_end(&mut ends, code.instrs[i], counter, i as u32);
    }
    Ok(ends)
}

// An instruction that goes back is the end of the loop that begins where it goes.
fn note_end(ends: &mut Vec<u32>, instr: Instr, counter: u32, at: u32)
    requires at { at < length ends.old.items }
    requires few { at < MOST_INSTRUCTIONS }
    ensures size { length ends.new.items ≡ length ends.old.items }
    ensures ends { (b : ℕ) → b < length ends.old.items → end_in (get_or ends.new.items b 0)
        ≡ cond (goes_back counter b instr && nat_le b at) (Some at) (end_in (get_or ends.old.items b 0)) }
{
    match instr {
        Instr::Again(k, first) => {
            if k == counter && first <= at {
                ends[first as usize] = at + 1;
            }
        }
        _ => {}
    }
}

/// What is looked up by address: the ends of all loops, over either counter, and the first addresses of each process's procedures.
pub struct Ends {
    pub zero: Vec<u32>,
    pub one: Vec<u32>,
    pub starts: Vec<BTreeSet<u32>>,
}

impl Drop for Ends {
    fn drop(self) {
        let Ends {
            zero: _,
            one: _,
            starts: _,
        } = self;
    }
}

pub fn all_ends(alloc: Global, code: &Code) -> Result<Ends, Memory>
    ensures ends { IfOk result (λ ends. AreEnds (plain code.now) ends) }
    ensures few { IfOk result (λ _. length code.now.instrs.items ≤ MOST_INSTRUCTIONS) }
{
    if code.instrs.len() > MOST_INSTRUCTIONS {
        return Err(Memory);
    }
    let zero = match ends_of_loops(alloc, code, 0) {
        Err(_) => return Err(Memory),
        Ok(zero) => zero,
    };
    let one = match ends_of_loops(alloc, code, 1) {
        Err(_) => return Err(Memory),
        Ok(one) => one,
    };
    let starts = match starts_of_procedures(alloc, &code.processes) {
        Err(_) => return Err(Memory),
        Ok(starts) => starts,
    };
    Ok(Ends { zero, one, starts })
}

/// The end of a loop.
pub fn end_of(code: &Code, ends: &Ends, counter: u32, first: u32) -> Option<u32>
    requires ends { AreEnds (plain code.now) ends.now }
    requires counter { counter < 2 }
    ensures { result ≡ end_of_loop (plain code.now) counter first }
{
    if first as usize >= code.instrs.len() {
        return None;
    }
    if counter == 0 {
        kept_at(&ends.zero, first)
    } else {
        kept_at(&ends.one, first)
    }
}

fn kept_at(ends: &[u32], at: u32) -> Option<u32>
    ensures { result ≡ end_in (get_or ends.now at 0) }
{
    match ends.get(at as usize) {
        None => None,
        Some(end) => { if *end == 0 { None } else { Some(*end - 1) } }
    }
}

fn starts_of_procedures(
    alloc: Global,
    processes: &[ProcessCode],
) -> Result<Vec<BTreeSet<u32>>, Memory>
    ensures { IfOk result (λ starts. AreStartsOf (map part processes.now) starts.items) }
{
    let mut all = Vec::new(alloc);
    for one in processes {
        all.push(starts_of(alloc, &one.procedures)?)?;
    }
    Ok(all)
}

fn starts_of(alloc: Global, procedures: &[ProcedureCode]) -> Result<BTreeSet<u32>, Memory>
    ensures { IfOk result (λ starts. (a : ℕ) → contains nat_cmp starts a ≡ is_start_among (map procedure procedures.now) a) }
{
    let mut starts = BTreeSet::new(alloc);
    for one in procedures {
        starts.insert(one.start)?;
    }
    Ok(starts)
}

/// A procedure of a process begins at an address.
pub fn is_procedure(code: &Code, ends: &Ends, process: u32, at: u32) -> bool
    requires ends { AreEnds (plain code.now) ends.now }
    ensures { result ≡ is_start_among (part_of (plain code.now) process).procedures at }
{
    match ends.starts.get(process as usize) {
        None => false,
        Some(starts) => starts.contains(&at),
    }
}
