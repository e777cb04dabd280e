//! The listing of a code: a line an instruction, behind the heads that stand before it, and a line a recovery block.

ghost use Rattle.std.specs.Prelude.{◌≡◌, ℕ, List, ◌+◌, ◌^◌, ◌<◌, [], ◌∷◌, ◌++◌, codes, decimal, length, map, None, IfOk, IfSome};
ghost use Rattle.rb_outside.specs.Puts.{Puts};
ghost use Rattle.rb_world.specs.Text.{line_of, process_word};
ghost use Rattle.rb_trace.specs.Naming.{naming};
ghost use Rattle.rb_code.specs.Instructions.Plain.{block as plain_block, code as plain_code, part};
ghost use Rattle.rb_code.specs.Instructions.Listing.{block_lines, heads_from, heads_past, instr_lines, lines_at, listing_text};
ghost use Rattle.rb_code.specs.Instructions.Heads.{heads_left};

use crate::code::{Code, ProcedureCode, ProcessCode};
use crate::line::{put_block, put_instr_line, put_two};
use rb_base::Names;
use rb_outside::{Failed, Sink};

/// Writes the listing of a code. It takes no memory.
pub fn listing<S: Sink>(code: &Code, out: &mut S) -> Result<(), Failed>
    ensures { Puts (listing_text (plain_code code.now)) (S.written out.old) (S.written out.new) (S.faults out.old) (S.faults out.new) result }
{
    put_instrs(code, out)?;
    put_blocks(code, out)
}

// The heads that are still to be written: of these procedures, and of these processes, the first of which has this number.
#[derive(Clone, Copy)]
struct Heads<'c> {
    procedures: &'c [ProcedureCode],
    process: usize,
    processes: &'c [ProcessCode],
}

// A head, and those after it.
#[derive(Clone, Copy)]
struct Next<'c> {
    word: &'static [u8],
    name: &'c [u8],
    others: Heads<'c>,
}

fn put_instrs<S: Sink>(code: &Code, out: &mut S) -> Result<(), Failed>
    ensures { Puts
        (instr_lines code.now.texts.items 0 (heads_from (naming code.now.names) 0 (map part code.now.processes.items)) code.now.instrs.items)
        (S.written out.old) (S.written out.new) (S.faults out.old) (S.faults out.new) result }
{
    let mut heads = Heads {
        procedures: &[],
        process: 0,
        processes: &code.processes,
    };
    for (address, instr) in code.instrs.iter().enumerate() {
        heads = put_heads(out, address, heads, &code.names)?;
        put_instr_line(out, address, instr, &code.texts)?;
    }
    Ok(())
}

// The heads that stand before an address; answers those after them.
fn put_heads<'c, S: Sink>(
    out: &mut S,
    address: usize,
    heads: Heads<'c>,
    names: &'c Names,
) -> Result<Heads<'c>, Failed>
    requires { heads.process + length heads.processes.now < 2 ^ 64 }
    ensures text { Puts (lines_at address (heads_left (naming names.now) heads.entry)) (S.written out.old)
        (S.written out.new) (S.faults out.old) (S.faults out.new) result }
    ensures past { IfOk result (λ left. heads_left (naming names.now) left ≡ heads_past address (heads_left (naming names.now) heads.entry)) }
    ensures few { IfOk result (λ left. left.process + length left.processes.now ≡ heads.entry.process + length heads.entry.processes.now) }
{
    let mut left = heads;
    'heads: while let Some(next) = next_at(left, address, names) {
        put_two(out, next.word, next.name)?;
        left = next.others;
    }
    Ok(left)
}

// The next head, where it stands before this address.
fn next_at<'c>(left: Heads<'c>, address: usize, names: &'c Names) -> Option<Next<'c>>
    requires { left.process + length left.processes.now < 2 ^ 64 }
    ensures some { IfSome result
        (λ next. heads_left (naming names.now) left.entry
        ≡ record { at = address; words = next.word.now ∷ next.name.now ∷ [] } ∷ heads_left (naming names.now) next.others) }
    ensures few { IfSome result
        (λ next. next.others.process + length next.others.processes.now ≡ left.entry.process + length left.entry.processes.now) }
    ensures none { result ≡ None
        → (lines_at address (heads_left (naming names.now) left.entry) ≡ [])
        × (heads_past address (heads_left (naming names.now) left.entry) ≡ heads_left (naming names.now) left.entry) }
{
    match left.procedures {
        [] => next_process(left, address, names),
        [first, others @ ..] => {
            if first.start as usize != address {
                return None;
            }
            Some(Next {
                word: b"procedure",
                name: first.name.as_bytes(),
                others: Heads {
                    procedures: others,
                    ..left
                },
            })
        }
    }
}

// The same where the procedures of the processes so far were written.
fn next_process<'c>(left: Heads<'c>, address: usize, names: &'c Names) -> Option<Next<'c>>
    requires few { left.process + length left.processes.now < 2 ^ 64 }
    requires none { left.procedures.now ≡ [] }
    ensures some { IfSome result
        (λ next. heads_left (naming names.now) left.entry
        ≡ record { at = address; words = next.word.now ∷ next.name.now ∷ [] } ∷ heads_left (naming names.now) next.others) }
    ensures few { IfSome result
        (λ next. next.others.process + length next.others.processes.now ≡ left.entry.process + length left.entry.processes.now) }
    ensures none { result ≡ None
        → (lines_at address (heads_left (naming names.now) left.entry) ≡ [])
        × (heads_past address (heads_left (naming names.now) left.entry) ≡ heads_left (naming names.now) left.entry) }
{
    match left.processes {
        [] => None,
        [first, others @ ..] => {
            if first.start as usize != address {
                return None;
            }
            Some(Next {
                word: b"process",
                name: process_of(names, left.process),
                others: Heads {
                    procedures: &first.procedures,
                    process: left.process + 1,
                    processes: others,
                },
            })
        }
    }
}

// A process's name, or nothing where there is no such process.
fn process_of(names: &Names, process: usize) -> &[u8]
    ensures { result.now ≡ process_word (naming names.now) process }
{
    match names.processes.get(process) {
        Some(named) => named.name.as_bytes(),
        None => b"",
    }
}

fn put_blocks<S: Sink>(code: &Code, out: &mut S) -> Result<(), Failed>
    ensures { Puts (block_lines (naming code.now.names) 0 (map plain_block code.now.blocks.items)) (S.written out.old)
        (S.written out.new) (S.faults out.old) (S.faults out.new) result }
{
    for (number, block) in code.blocks.iter().enumerate() {
        put_block(out, number, block, &code.names)?;
    }
    Ok(())
}
