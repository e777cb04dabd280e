//! What a machine is read by: how its processes stand, their variables, how many values were sent and taken on each channel, and the released
//! lines that wait.

ghost use Rattle.std.specs.Prelude.{◌≡◌, ◌<◌, pos, length, slice_get, option_map, Option, Some};
ghost use Rattle.rb_base.specs.Lines.{AtMostOneTick, belonging};
ghost use Rattle.rb_code.specs.Instructions.Plain.{code as plain};
ghost use Rattle.rb_code.specs.WordMachine.WordKind.{cursor_in};
ghost use Rattle.rb_code.specs.WordMachine.Turn.{Copy, Standing};
ghost use Rattle.rb_proc.specs.Executable.{IsExecutable};
ghost use Rattle.rb_proc.specs.Process.{Seen, wanted_of};
ghost use Rattle.rb_world.specs.World.{Level, Process};
ghost use Rattle.rb_recovery.specs.Channels.{AreNumbered, conversation_in};
ghost use Rattle.rb_recovery.specs.Reading.{AreCounted, HasEnd, line_stood_at, sent_of, states_of, taken_of, variables_of};
ghost use Rattle.rb_recovery.specs.Innermost.{IsInnermost};
ghost use Rattle.rb_recovery.specs.Worlds.{processes_of};

use rb_base::{State, Steps};
use rb_code::Code;
use rb_proc::{LevelView, Proc, Wanted};
use rb_recovery::innermost::innermost;
use std::sync::ledger::Ledger;

/// How process p stands; a running one with its number of open levels.
pub fn state_at<L: Ledger>(procs: &[Proc<L>], p: u32) -> State
    requires { p < length procs.now }
    ensures { slice_get (states_of (processes_of procs.now)) p ≡ Some result }
{
    procs[p as usize].state()
}

/// Word number `at` of the variables of process p.
pub fn word_at<L: Ledger>(
    code: &Code,
    procs: &[Proc<L>],
    p: u32,
    at: u32,
    steps: &mut Steps<L>,
) -> i64
    requires numbered { AreNumbered (plain code.now) procs.now }
    requires at { at < length (belonging (variables_of (plain code.now) (processes_of procs.now)) p) }
    ensures word { slice_get (belonging (variables_of (plain code.now) (processes_of procs.now)) p) at ≡ Some result }
    ensures work { AtMostOneTick steps.old steps.new }
{
    procs[p as usize].word(code, at, steps)
}

/// How many values were sent on a channel.
pub fn sent_on<L: Ledger>(code: &Code, procs: &[Proc<L>], channel: u32, steps: &mut Steps<L>) -> i64
    requires counted { AreCounted (plain code.now) procs.now }
    requires channel { channel < length (plain code.now).channels }
    ensures sent { option_map pos (slice_get (sent_of (plain code.now) (processes_of procs.now)) channel) ≡ Some result }
    ensures work { AtMostOneTick steps.old steps.new }
{
    let sender = code.channels[channel as usize].sender;
    cursor_at(code, procs, sender, channel, steps)
}

/// How many values were taken from a channel.
pub fn taken_on<L: Ledger>(
    code: &Code,
    procs: &[Proc<L>],
    channel: u32,
    steps: &mut Steps<L>,
) -> i64
    requires counted { AreCounted (plain code.now) procs.now }
    requires channel { channel < length (plain code.now).channels }
    ensures taken { option_map pos (slice_get (taken_of (plain code.now) (processes_of procs.now)) channel) ≡ Some result }
    ensures work { AtMostOneTick steps.old steps.new }
{
    let receiver = code.channels[channel as usize].receiver;
    cursor_at(code, procs, receiver, channel, steps)
}

// The cursor of a channel in process p, an end of it.
fn cursor_at<L: Ledger>(
    code: &Code,
    procs: &[Proc<L>],
    p: u32,
    channel: u32,
    steps: &mut Steps<L>,
) -> i64
    requires counted { AreCounted (plain code.now) procs.now }
    requires end { HasEnd (plain code.now) procs.now channel p }
    ensures cursor { (one : Seen) → slice_get procs.now p ≡ Some one → result ≡ pos (cursor_in (plain code.now) p one.process.state.words channel) }
    ensures work { AtMostOneTick steps.old steps.new }
{
    procs[p as usize].cursor(code, channel, steps) as i64
}

/// What process p wants of its next turn.
pub fn want_at<L: Ledger>(code: &Code, procs: &[Proc<L>], p: u32) -> Wanted
    requires code { IsExecutable (plain code.now) }
    requires process { p < length procs.now }
    ensures { (q : Process Standing Copy) → slice_get (processes_of procs.now) p ≡ Some q → result ≡ wanted_of (plain code.now) q }
{
    procs[p as usize].want(code)
}

/// The address at which process p stands.
pub fn place_at<L: Ledger>(procs: &[Proc<L>], p: u32) -> u32
    requires { p < length procs.now }
    ensures { (q : Process Standing Copy) → slice_get (processes_of procs.now) p ≡ Some q → result ≡ q.state.at }
{
    procs[p as usize].place()
}

/// The conversation at whose test line process p stands, if it stands at one.
pub fn line_at<L: Ledger>(procs: &[Proc<L>], p: u32) -> Option<u32>
    requires { p < length procs.now }
    ensures { (q : Process Standing Copy) → slice_get (processes_of procs.now) p ≡ Some q → result ≡ line_stood_at q }
{
    line_of(&procs[p as usize])
}

// The conversation at whose test line a process stands, if it stands at one.
fn line_of<L: Ledger>(proc: &Proc<L>) -> Option<u32>
    ensures { result ≡ line_stood_at proc.now.process }
{
    if proc.at_line() {
        conversation_of(innermost(proc))
    } else {
        None
    }
}

// The conversation of a level, and none without a level.
fn conversation_of(level: Option<LevelView>) -> Option<u32>
    ensures { (o : Option (Level Copy)) → IsInnermost o level → result ≡ conversation_in o }
{
    match level {
        None => None,
        Some(view) => view.conversation,
    }
}
