//! The numbers of processes, channels and conversations, each that of the first declaration with the name; an unknown name
//! has the number 0.

ghost use Rattle.std.specs.Prelude.{◌≡◌, position};
ghost use Rattle.rb_syntax.specs.Plain.{tree};
ghost use Rattle.rb_meaning.specs.Environment.{same_name};
ghost use Rattle.rb_meaning.specs.Groups.{channel_number, conversation_number, process_number};

use rb_syntax::{Channel, Conversation, Process, Program};

/// The number of a process by its name; 0 where none has it.
#[tactic(auto, using(rb_base::proofs::Named::position_mapped))]
pub fn process_number(program: &Program<'_>, name: &[u8]) -> usize
    ensures { result ≡ process_number (tree program.now) name.now }
{
    process_place(&program.processes, name).unwrap_or(0)
}

fn process_place(processes: &[Process<'_>], name: &[u8]) -> Option<usize>
    ensures { result ≡ position (λ one. same_name one.name.text.now name.now) processes.now }
{
    processes.iter().position(|one| one.name.text == name)
}

/// The number of a channel by its name; 0 where none has it.
#[tactic(auto, using(rb_base::proofs::Named::position_mapped))]
pub fn channel_number(program: &Program<'_>, name: &[u8]) -> usize
    ensures { result ≡ channel_number (tree program.now) name.now }
{
    channel_place(&program.channels, name).unwrap_or(0)
}

fn channel_place(channels: &[Channel<'_>], name: &[u8]) -> Option<usize>
    ensures { result ≡ position (λ one. same_name one.name.text.now name.now) channels.now }
{
    channels.iter().position(|one| one.name.text == name)
}

/// The number of a conversation by its name; 0 where none has it.
#[tactic(auto, using(rb_base::proofs::Named::position_mapped))]
pub fn conversation_number(program: &Program<'_>, name: &[u8]) -> usize
    ensures { result ≡ conversation_number (tree program.now) name.now }
{
    conversation_place(&program.conversations, name).unwrap_or(0)
}

fn conversation_place(conversations: &[Conversation<'_>], name: &[u8]) -> Option<usize>
    ensures { result ≡ position (λ one. same_name one.name.text.now name.now) conversations.now }
{
    conversations.iter().position(|one| one.name.text == name)
}
