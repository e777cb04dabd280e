//! How a program stood when its changes were told last.

ghost use Rattle.std.specs.Prelude.{◌≡◌, false, map, replicate, IfOk};
ghost use Rattle.rb_code.specs.Instructions.Plain.{channel, code as plain, part};
ghost use Rattle.rb_conv.specs.Conversations.{memberships, opening};
ghost use Rattle.rb_changes.specs.Noted.{noted_of};
ghost use Rattle.rb_picture.specs.Trace.{before_opening, fresh_process, process_before};
ghost use Rattle.rb_view.specs.Steady.{IsSized, IsSteady, noted_now};
ghost use Rattle.rb_view.specs.Noting.{AreReady, IsReady, first_numbers, noted, processes_noted};

use crate::noting::note;
use rb_base::{MOST_OPEN_LEVELS, Memory, Nested, Steps};
use rb_code::Code;
use rb_code::code::{ChannelCode, ProcessCode};
use rb_machine::Machine;
use rb_picture::{Numbers, ProcessWas, Stand, TalkNoted};
use std::alloc::Global;
use std::marker::Model;
use std::sync::ledger::Ledger;

/// A program as far as changes of it are told: its processes, its channels and its conversations.
pub struct Noted {
    pub processes: Vec<ProcessWas>,
    pub channels: Vec<Numbers>,
    pub talks: Vec<TalkNoted>,
}

impl Drop for Noted {
    fn drop(self) {
        let Noted {
            processes: _,
            channels: _,
            talks: _,
        } = self;
    }
}

/// How a program stood when its changes were told last, with as much memory again for how it stands then. No turn takes more.
pub struct Was {
    pub(crate) told: Noted,
    pub(crate) now: Noted,
}

impl Drop for Was {
    fn drop(self) {
        let Was { told: _, now: _ } = self;
    }
}

impl Model for Was {
    ghost use Rattle.rb_changes.specs.Noted.{WorldNoted};
    ghost use Rattle.rb_view.specs.Noting.{IsKept, noted};

    ghost Value = { WorldNoted };

    ghost view = { λ was. noted was.told };

    ghost invariant = { λ was. IsKept was.told was.now };
}

impl Was {
    /// A program before its opening was told: every variable is 0, no level is open, and nothing was sent.
    pub fn new(alloc: Global, code: &Code, nested: &Nested) -> Result<Self, Memory>
        ensures { IfOk result (λ was. was ≡ before_opening (plain code.now) (memberships (opening nested.now))) }
    {
        Ok(Was {
            told: Noted::opening(alloc, code, nested)?,
            now: Noted::opening(alloc, code, nested)?,
        })
    }

    /// Keeps in mind how the machine stands now.
    pub(crate) fn keep<L: Ledger>(&mut self, machine: &Machine<'_, L>, steps: &mut Steps<L>)
        requires steady { IsSteady machine.now }
        requires sized { IsSized machine.now.code machine.now.groups self.old }
        ensures { self.new ≡ noted_now machine.now }
    {
        note(machine, &mut self.now, steps);
        note(machine, &mut self.told, steps);
    }
}

impl Noted {
    fn opening(alloc: Global, code: &Code, nested: &Nested) -> Result<Self, Memory>
        ensures noted { IfOk result (λ one. noted one ≡ before_opening (plain code.now) (memberships (opening nested.now))) }
        ensures ready { IfOk result (λ one. AreReady one.processes.items) }
    {
        let processes = opening_processes(alloc, &code.processes)?;
        let channels = opening_channels(alloc, &code.channels)?;
        let talks = opening_talks(alloc, nested.conversations.len())?;
        Ok(Noted {
            processes,
            channels,
            talks,
        })
    }
}

fn opening_processes(alloc: Global, parts: &[ProcessCode]) -> Result<Vec<ProcessWas>, Memory>
    ensures noted { IfOk result (λ all. processes_noted all.items ≡ map process_before (map part parts.now)) }
    ensures ready { IfOk result (λ all. AreReady all.items) }
{
    let mut processes = Vec::with_capacity(alloc, parts.len())?;
    for process in parts {
        processes.push(opening_process(alloc, process.words)?)?;
    }
    Ok(processes)
}

fn opening_process(alloc: Global, words: u32) -> Result<ProcessWas, Memory>
    ensures noted { IfOk result (λ one. noted_of one ≡ fresh_process words) }
    ensures ready { IfOk result IsReady }
{
    Ok(ProcessWas {
        words: vec![in alloc; 0; words as usize]?,
        levels: Vec::with_capacity(alloc, MOST_OPEN_LEVELS as usize)?,
        held: 0,
        stand: Stand::Runs,
    })
}

fn opening_channels(alloc: Global, channels: &[ChannelCode]) -> Result<Vec<Numbers>, Memory>
    ensures { IfOk result (λ all. all.items ≡ map first_numbers (map channel channels.now)) }
{
    let mut numbers = Vec::with_capacity(alloc, channels.len())?;
    for channel in channels {
        numbers.push(Numbers {
            sent: 0,
            taken: 0,
            seen: 0,
            free: u64::from(channel.size),
        })?;
    }
    Ok(numbers)
}

fn opening_talks(alloc: Global, count: usize) -> Result<Vec<TalkNoted>, Memory>
    ensures { IfOk result (λ all. all.items ≡ replicate count (record { alternate = 1; is_broken = false })) }
{
    Ok(vec![in alloc; TalkNoted {
        alternate: 1,
        is_broken: false
    }; count]?)
}
