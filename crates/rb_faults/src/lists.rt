//! Lists that may have so many entries at most. Of those that are too many the first is told.

ghost use Rattle.std.specs.Prelude.{◌≡◌, map, OnOk};
ghost use Rattle.rb_base.specs.Limits.{most_processes};
ghost use Rattle.rb_syntax.specs.Plain.{identifier, print_item, channel_declaration, conversation_declaration, process_declaration};
ghost use Rattle.rb_scope.specs.Sites.{list_sites};
ghost use Rattle.rb_faults.specs.Finding.{visited};

use crate::finder::Finder;
use rb_base::{Edition, FaultName, MOST_CONNECTIONS, MOST_ITEMS, MOST_PARAMETERS, Memory};
use rb_scope::most_processes;
use rb_syntax::{Channel, Conversation, Item, Name, Process};

/// Visits the items of a `print` as a list.
#[tactic(auto, using(crate::proofs::Long::short))]
pub(crate) fn count_items(items: &[Item<'_>], finder: &mut Finder) -> Result<(), Memory>
    ensures { OnOk result
        (finder.new ≡ visited finder.old (list_sites (λ item. item.place) MOST_ITEMS 0 (map print_item items.now))) }
{
    if items.len() > MOST_ITEMS {
        finder.note(true, FaultName::S7, items[MOST_ITEMS].place)?;
    }
    Ok(())
}

/// Visits the parameters of a procedure as a list.
#[tactic(auto, using(crate::proofs::Long::short))]
pub(crate) fn count_parameters(parameters: &[Name<'_>], finder: &mut Finder) -> Result<(), Memory>
    ensures { OnOk result
        (finder.new ≡ visited finder.old (list_sites (λ name. name.place) MOST_PARAMETERS 0 (map identifier parameters.now))) }
{
    if parameters.len() > MOST_PARAMETERS {
        finder.note(true, FaultName::S7, parameters[MOST_PARAMETERS].place)?;
    }
    Ok(())
}

/// Visits the channels of a program as a list.
#[tactic(auto, using(crate::proofs::Long::short))]
pub(crate) fn count_channels(channels: &[Channel<'_>], finder: &mut Finder) -> Result<(), Memory>
    ensures { OnOk result
        (finder.new ≡ visited finder.old (list_sites (λ one. one.name.place) MOST_CONNECTIONS 0 (map channel_declaration channels.now))) }
{
    if channels.len() > MOST_CONNECTIONS {
        finder.note(true, FaultName::S7, channels[MOST_CONNECTIONS].name.place)?;
    }
    Ok(())
}

/// Visits the conversations of a program as a list.
#[tactic(auto, using(crate::proofs::Long::short))]
pub(crate) fn count_conversations(
    conversations: &[Conversation<'_>],
    finder: &mut Finder,
) -> Result<(), Memory>
    ensures { OnOk result
        (finder.new ≡ visited finder.old (list_sites (λ one. one.name.place) MOST_CONNECTIONS 0 (map conversation_declaration conversations.now))) }
{
    if conversations.len() > MOST_CONNECTIONS {
        finder.note(
            true,
            FaultName::S7,
            conversations[MOST_CONNECTIONS].name.place,
        )?;
    }
    Ok(())
}

/// Visits the processes of a program as a list.
#[tactic(auto, using(crate::proofs::Long::short))]
pub(crate) fn count_processes(
    edition: Edition,
    processes: &[Process<'_>],
    finder: &mut Finder,
) -> Result<(), Memory>
    ensures { OnOk result
        (finder.new ≡ visited finder.old (list_sites (λ one. one.name.place) (most_processes edition) 0 (map process_declaration processes.now))) }
{
    let most = most_processes(edition);
    if processes.len() > most {
        finder.note(true, FaultName::S7, processes[most].name.place)?;
    }
    Ok(())
}
