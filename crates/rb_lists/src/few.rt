//! How many there are: of processes, channels and conversations, and of names beside them.

ghost use Rattle.std.specs.Prelude.{◌≡◌, ◌↔◌, IsTrue};
ghost use Rattle.rb_lists.specs.Parts.{AreFew, HaveNames};

use rb_base::{MOST_CONNECTIONS, Nested};
use rb_code::Code;
use rb_scope::most_processes;

/// Whether processes, channels and conversations are few enough.
pub(crate) fn are_few(code: &Code, nested: &Nested) -> bool
    ensures { IsTrue result ↔ AreFew code.now nested.now }
{
    code.processes.len() <= most_processes(code.edition)
        && code.channels.len() <= MOST_CONNECTIONS
        && nested.conversations.len() <= MOST_CONNECTIONS
}

/// Whether there is one name for each process, channel and conversation.
pub(crate) fn have_names(code: &Code, nested: &Nested) -> bool
    ensures { IsTrue result ↔ HaveNames code.now nested.now }
{
    code.names.processes.len() == code.processes.len()
        && code.names.channels.len() == code.channels.len()
        && code.names.conversations.len() == nested.conversations.len()
}
