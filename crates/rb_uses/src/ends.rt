//! The ends of channels, and the rule that a channel leads from one process to another.

ghost use Rattle.std.specs.Prelude.{◌≡◌, map, IfOk, OnOk};
ghost use Rattle.std.specs.List.{flat_map};
ghost use Rattle.rb_syntax.specs.Plain.{channel_declaration, tree};
ghost use Rattle.rb_meaning.specs.Groups.{channels_of, ends_of};
ghost use Rattle.rb_scope.specs.Finding.{first_after};
ghost use Rattle.rb_nest.specs.Rules.{channel_faults};
ghost use Rattle.rb_uses.specs.Members.{ends_alone};

use rb_base::{FaultName, Memory, SourceFault};
use rb_meaning::numbers::process_number;
use rb_nest::found::note;
use rb_syntax::{Channel, Program};
use std::alloc::Global;

/// The two ends of a channel, by the numbers of the processes.
#[derive(Clone, Copy)]
pub struct Ends {
    pub sender: usize,
    pub receiver: usize,
}

fn ends_of(program: &Program<'_>, channel: &Channel<'_>) -> Ends
    ensures { result ≡ ends_alone (ends_of (tree program.now) (channel_declaration channel.now)) }
{
    Ends {
        sender: process_number(program, channel.sender.text),
        receiver: process_number(program, channel.receiver.text),
    }
}

/// The ends of all channels. Notes each channel that leads from a process to itself.
pub fn ends_of_channels(
    alloc: Global,
    program: &Program<'_>,
    first: &mut Option<SourceFault>,
) -> Result<Vec<Ends>, Memory>
    ensures ends { IfOk result (λ ends. ends.items ≡ map ends_alone (channels_of (tree program.now))) }
    ensures found { OnOk result
        (first.new
        ≡ first_after first.old (flat_map (channel_faults (tree program.now)) (map channel_declaration program.now.channels.items))) }
{
    let mut all = Vec::new(alloc);
    let mut rest = program.channels.as_slice();
    'channels: while let [channel, after @ ..] = rest {
        let ends = ends_of(program, channel);
        let leads_back = ends.sender == ends.receiver;
        note(first, leads_back, FaultName::N12, channel.receiver.place);
        all.push(ends)?;
        rest = after;
    }
    Ok(all)
}
