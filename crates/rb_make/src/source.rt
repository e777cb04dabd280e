//! The source of a trial, part by part.

ghost use Rattle.std.specs.Prelude.{◌≡◌, ◌-◌, ◌<◌, ◌≤◌, ◌++◌, IfOk, OnOk};
ghost use Rattle.std.specs.List.{flat_map, range_with_len};
ghost use Rattle.rb_base.specs.declared.limits.TheConstants.{MOST_PROCESSES_FIRST};
ghost use Rattle.rb_make.specs.Trial.{beginning, channel_line, conversation_line, ending, first_process, later_alternate, later_primary, later_process, next_member, sends_on, source};

use crate::piece::Piece::{Bytes, Number};
use crate::piece::push;
use rb_base::text::Memory;
use std::alloc::Global;

/// How large a trial is: its processes, the rounds that each of them makes, and what the first adds.
#[derive(Clone, Copy)]
pub(crate) struct Sizes {
    pub(crate) processes: u64,
    pub(crate) rounds: u64,
    pub(crate) added: u64,
    ghost few_processes: { (2 ≤ processes) × (processes ≤ MOST_PROCESSES_FIRST) },
    ghost few_rounds: { rounds ≤ 50 },
}

/// The source of a trial of these sizes.
#[tactic(auto, unfolding(crate::specs::Trial::source))]
pub(crate) fn source_text(alloc: Global, sizes: Sizes) -> Result<Vec<u8>, Memory>
    ensures { IfOk result (λ text. text.items ≡ source sizes.processes sizes.rounds sizes.added) }
{
    let mut text = Vec::new(alloc);
    push(&mut text, &[Bytes(b"program trial;\n")])?;
    push_channels(&mut text, sizes)?;
    push_conversation(&mut text, sizes)?;
    push_first_process(&mut text, sizes)?;
    push_later_processes(&mut text, sizes)?;
    push(&mut text, &[Bytes(b"end.\n")])?;
    Ok(text)
}

fn push_channels(text: &mut Vec<u8>, sizes: Sizes) -> Result<(), Memory>
    ensures { OnOk result (text.new.items ≡ text.old.items ++ flat_map channel_line (range_with_len 1 (sizes.processes - 1))) }
{
    for process in 1..sizes.processes {
        push_channel(text, process)?;
    }
    Ok(())
}

#[tactic(auto, unfolding(crate::specs::Trial::channel_line))]
fn push_channel(text: &mut Vec<u8>, process: u64) -> Result<(), Memory>
    requires { process < MOST_PROCESSES_FIRST }
    ensures { OnOk result (text.new.items ≡ text.old.items ++ channel_line process) }
{
    push(
        text,
        &[
            Bytes(b"channel c"),
            Number(process),
            Bytes(b" from p"),
            Number(process),
            Bytes(b" to p"),
            Number(process + 1),
            Bytes(b" size 4;\n"),
        ],
    )
}

#[tactic(auto, unfolding(crate::specs::Trial::conversation_line))]
fn push_conversation(text: &mut Vec<u8>, sizes: Sizes) -> Result<(), Memory>
    ensures { OnOk result (text.new.items ≡ text.old.items ++ conversation_line sizes.processes) }
{
    push(text, &[Bytes(b"conversation C (p1")])?;
    push_later_members(text, sizes)?;
    push(text, &[Bytes(b");\n")])
}

#[tactic(auto, unfolding(crate::specs::Trial::next_member))]
fn push_later_members(text: &mut Vec<u8>, sizes: Sizes) -> Result<(), Memory>
    ensures { OnOk result (text.new.items ≡ text.old.items ++ flat_map next_member (range_with_len 2 (sizes.processes - 1))) }
{
    for process in 2..sizes.processes + 1 {
        push(text, &[Bytes(b", p"), Number(process)])?;
    }
    Ok(())
}

#[tactic(auto, unfolding(crate::specs::Trial::beginning))]
fn push_beginning(text: &mut Vec<u8>, process: u64, sizes: Sizes) -> Result<(), Memory>
    ensures { OnOk result (text.new.items ≡ text.old.items ++ beginning process sizes.rounds) }
{
    push(
        text,
        &[
            Bytes(b"process p"),
            Number(process),
            Bytes(b" { var i; var x;\nwhile i < "),
            Number(sizes.rounds),
            Bytes(b" { i := i + 1;\nconverse C ensure x % 3 <> 0 within 1000 by { "),
        ],
    )
}

#[tactic(auto, unfolding(crate::specs::Trial::ending))]
fn push_ending(text: &mut Vec<u8>) -> Result<(), Memory>
    ensures { OnOk result (text.new.items ≡ text.old.items ++ ending) }
{
    push(text, &[Bytes(b" } else error;\nprint x; } }\n")])
}

#[tactic(auto, unfolding(crate::specs::Trial::first_process))]
fn push_first_process(text: &mut Vec<u8>, sizes: Sizes) -> Result<(), Memory>
    ensures { OnOk result (text.new.items ≡ text.old.items ++ first_process sizes.rounds sizes.added) }
{
    push_beginning(text, 1, sizes)?;
    push(
        text,
        &[
            Bytes(b"x := x + i; ensure x > prior x within 20 by { x := x + "),
            Number(sizes.added),
            Bytes(b"; } else error; send c1 x; }\nelse by { x := 3 * i + 1; send c1 x;"),
        ],
    )?;
    push_ending(text)
}

fn push_later_processes(text: &mut Vec<u8>, sizes: Sizes) -> Result<(), Memory>
    ensures { OnOk result
        (text.new.items ≡ text.old.items ++ flat_map (later_process sizes.processes sizes.rounds) (range_with_len 2 (sizes.processes - 1))) }
{
    for process in 2..sizes.processes + 1 {
        push_later_process(text, process, sizes)?;
    }
    Ok(())
}

#[tactic(auto, unfolding(crate::specs::Trial::later_process))]
fn push_later_process(text: &mut Vec<u8>, process: u64, sizes: Sizes) -> Result<(), Memory>
    requires { 1 ≤ process }
    ensures { OnOk result (text.new.items ≡ text.old.items ++ later_process sizes.processes sizes.rounds process) }
{
    push_beginning(text, process, sizes)?;
    push_later_primary(text, process, sizes)?;
    push_later_alternate(text, process, sizes)?;
    push_ending(text)
}

#[tactic(auto, unfolding(crate::specs::Trial::later_primary))]
fn push_later_primary(text: &mut Vec<u8>, process: u64, sizes: Sizes) -> Result<(), Memory>
    requires { 1 ≤ process }
    ensures { OnOk result (text.new.items ≡ text.old.items ++ later_primary sizes.processes process) }
{
    push(
        text,
        &[
            Bytes(b"receive c"),
            Number(process - 1),
            Bytes(b" x; x := x + "),
            Number(process),
            Bytes(b";"),
        ],
    )?;
    push_send(text, process, sizes)?;
    push(text, &[Bytes(b" }\n")])
}

#[tactic(auto, unfolding(crate::specs::Trial::later_alternate))]
fn push_later_alternate(text: &mut Vec<u8>, process: u64, sizes: Sizes) -> Result<(), Memory>
    requires { 1 ≤ process }
    ensures { OnOk result (text.new.items ≡ text.old.items ++ later_alternate sizes.processes process) }
{
    push(
        text,
        &[
            Bytes(b"else by { receive c"),
            Number(process - 1),
            Bytes(b" x;"),
        ],
    )?;
    push_send(text, process, sizes)
}

/// What a process sends on: the last one nothing.
#[tactic(auto, unfolding(crate::specs::Trial::sends_on))]
fn push_send(text: &mut Vec<u8>, process: u64, sizes: Sizes) -> Result<(), Memory>
    ensures { OnOk result (text.new.items ≡ text.old.items ++ sends_on sizes.processes process) }
{
    if process < sizes.processes {
        push(text, &[Bytes(b" send c"), Number(process), Bytes(b" x;")])?;
    }
    Ok(())
}
