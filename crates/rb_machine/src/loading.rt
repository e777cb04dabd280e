//! Loading a program: its processes at their bodies, empty channels, and conversations that nobody has entered.

ghost use Rattle.std.specs.Prelude.{◌≡◌, ◌<◌, ◌≤◌, ◌-◌, ◌^◌, nat_lt, true, false, [], length, map, IfOk};
ghost use Rattle.std.specs.List.{All, list_all};
ghost use Rattle.rb_world.specs.Slots.{zero_slots};
ghost use Rattle.rb_code.specs.declared.code.ChannelCode.{ChannelCode as Channel};
ghost use Rattle.rb_code.specs.Instructions.Plain.{channel, code as plain};
ghost use Rattle.rb_code.specs.SoundCode.WellFormed.{IsSound};
ghost use Rattle.rb_code.specs.WordMachine.WordRun.{opening_standings};
ghost use Rattle.rb_conv.specs.Conversations.{memberships, opening};
ghost use Rattle.rb_proc.specs.Executable.{IsExecutable};
ghost use Rattle.rb_machine.specs.AtWork.{HasFewAlternates};
ghost use Rattle.rb_machine.specs.Loading.{AllSettle, first_seen};
ghost use Rattle.rb_machine.specs.Machine.{IsTied, opening_seen, seen};
ghost use Rattle.rb_machine.specs.Telling.{running_of};
ghost use Rattle.rb_recovery.specs.Worlds.{counts_of, processes_of};

use crate::rests::Resting;
use crate::telling::note_running;
use rb_base::{Memory, Nested, Steps};
use rb_code::{BlockCode, ChannelCode, Code};
use rb_conv::Table;
use rb_mail::Mails;
use rb_proc::Proc;
use rb_recovery::links::Links;
use rb_recovery::parts::Parts;
use std::alloc::Global;
use std::sync::ledger::Ledger;

/// The parts of a machine before its first turn, who runs, and that nobody is known to rest.
#[derive(Drop)]
pub struct Loaded<L: Ledger> {
    pub parts: Parts<L>,
    pub running: Vec<bool>,
    pub resting: Resting,
}

/// Loads a program for so many turns, with links, of which there is none yet; `Memory` if it is wanting, or if 32 bits do not number the
/// instructions and the alternates of the code.
pub(crate) fn load_parts<L: Ledger>(
    alloc: Global,
    code: &Code,
    nested: &Nested,
    turns: u32,
    links: Links,
    steps: &mut Steps<L>,
) -> Result<Loaded<L>, Memory>
    requires sound { IsSound (plain code.now) (memberships (opening nested.now)) (counts_of (opening nested.now)) }
    requires turns { turns < 2 ^ 32 - 1 }
    requires none { links.items ≡ [] }
    requires room { turns ≤ links.room }
    ensures seen { IfOk result
        (λ loaded. seen (plain code.now) loaded.parts 0 turns ≡ opening_seen (plain code.now) (memberships (opening nested.now)) links.held turns) }
    ensures tied { IfOk result
        (λ loaded. IsTied (plain code.now) loaded.parts loaded.running.items 0 turns false loaded.resting) }
{
    if !is_numbered(code) {
        return Err(Memory);
    }
    let procs = load_processes(alloc, code, steps)?;
    let mails = load_mails(alloc, &code.channels)?;
    let table = Table::new(alloc, nested)?;
    let running = who_runs(alloc, &procs)?;
    let resting = Resting::new(alloc, procs.len())?;
    Ok(Loaded {
        parts: Parts {
            mails,
            procs,
            table,
            links,
        },
        running,
        resting,
    })
}

// Whether 32 bits number the instructions and the alternates of a code. A source of 1 MiB has far fewer.
fn is_numbered(code: &Code) -> bool
    ensures instructions { result ≡ true → length (plain code.now).instrs < 2 ^ 32 }
    ensures alternates { result ≡ true → HasFewAlternates (plain code.now) }
{
    code.instrs.len() < u32::MAX as usize && have_few_alternates(&code.blocks)
}

fn have_few_alternates(blocks: &[BlockCode]) -> bool
    ensures { result ≡ list_all (λ block. nat_lt (length block.alternates.items) (2 ^ 32 - 1)) blocks.now }
{
    blocks
        .iter()
        .all(|block| block.alternates.len() < u32::MAX as usize)
}

// All processes at their bodies, once they have settled.
fn load_processes<L: Ledger>(
    alloc: Global,
    code: &Code,
    steps: &mut Steps<L>,
) -> Result<Vec<Proc<L>>, Memory>
    requires code { IsExecutable (plain code.now) }
    requires few { length (plain code.now).processes < 2 ^ 32 }
    requires settle { AllSettle (plain code.now) }
    ensures { IfOk result (λ procs. procs.items ≡ map (first_seen (plain code.now)) (opening_standings 0 (plain code.now).processes)) }
{
    let mut procs = Vec::with_capacity(alloc, code.processes.len())?;
    for process in 0..code.processes.len() {
        procs.push(Proc::new(alloc, code, process as u32, steps)?)?;
    }
    Ok(procs)
}

// All channels with 0 in their slots.
fn load_mails(alloc: Global, channels: &[ChannelCode]) -> Result<Mails, Memory>
    requires { All (λ (one : Channel). 1 ≤ one.size) channels.now }
    ensures { IfOk result (λ mails. mails ≡ zero_slots (map channel channels.now)) }
{
    let mut mails = Mails::with_room(alloc, channels.len())?;
    for channel in channels {
        mails.add(alloc, channel.size)?;
    }
    Ok(mails)
}

// Who runs, by number.
fn who_runs<L: Ledger>(alloc: Global, procs: &[Proc<L>]) -> Result<Vec<bool>, Memory>
    ensures { IfOk result (λ running. running.items ≡ running_of (processes_of procs.now)) }
{
    let mut running = vec![in alloc; false; procs.len()]?;
    note_running(procs, &mut running);
    Ok(running)
}
