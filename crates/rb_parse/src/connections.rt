//! Channels and conversations.
ghost use Rattle.std.specs.Prelude.{◌≡◌, ◌≤◌, ◌<◌, length, map, IfOk, IfErr, OnOk};
ghost use Rattle.rb_grammar.specs.Machine.{Reads};
ghost use Rattle.rb_grammar.specs.Parts.{Part};
ghost use Rattle.rb_grammar.specs.Reading.{IsNotRead};
ghost use Rattle.rb_syntax.specs.Plain.{channel_declaration, conversation_declaration};

use crate::declarations::read_names;
use crate::steps::{append, closed};
use rb_grammar::{Cursor, Stop, Terminal, read_number};
use rb_syntax::{Channel, Conversation};
use std::alloc::Global;

/// The channels and conversations of a program.
#[derive(Drop)]
pub(crate) struct Connections<'a> {
    pub(crate) channels: Vec<Channel<'a>>,
    pub(crate) conversations: Vec<Conversation<'a>>,
}

/// Reads all channels and conversations that stand here.
pub(crate) fn read_connections<'a>(
    alloc: Global,
    cursor: &mut Cursor<'a>,
) -> Result<Connections<'a>, Stop>
    ensures ok { IfOk result
        (λ all. Reads Part.Connections (
          map channel_declaration all.channels.items,
          map conversation_declaration all.conversations.items,
        ) cursor.old.point cursor.new.point) }
    ensures err { IfErr result (IsNotRead Part.Connections cursor.old cursor.new) }
    ensures ending { cursor.new.ending ≡ cursor.old.ending }
    ensures shorter { OnOk result (length cursor.new.point.left ≤ length cursor.old.point.left) }
{
    let mut channels = Vec::new(alloc);
    let mut conversations = Vec::new(alloc);
    'connections: loop {
        if cursor.stands_at(Terminal::Channel) {
            let channel = read_channel(cursor)?;
            append(&mut channels, channel)?;
        } else if cursor.stands_at(Terminal::Conversation) {
            let conversation = read_conversation(alloc, cursor)?;
            append(&mut conversations, conversation)?;
        } else {
            return Ok(Connections {
                channels,
                conversations,
            });
        }
    }
}

fn read_channel<'a>(cursor: &mut Cursor<'a>) -> Result<Channel<'a>, Stop>
    ensures ok { IfOk result (λ channel. Reads Part.Channel (channel_declaration channel) cursor.old.point cursor.new.point) }
    ensures err { IfErr result (IsNotRead Part.Channel cursor.old cursor.new) }
    ensures ending { cursor.new.ending ≡ cursor.old.ending }
    ensures shorter { OnOk result (length cursor.new.point.left < length cursor.old.point.left) }
{
    let name = cursor.take_named(Terminal::Channel)?;
    let sender = cursor.take_named(Terminal::From)?;
    let receiver = cursor.take_named(Terminal::To)?;
    cursor.take(Terminal::Size)?;
    let size = read_number(cursor)?;
    let channel = Channel {
        name,
        sender,
        receiver,
        size,
    };
    closed(cursor, channel, Terminal::Semicolon)
}

fn read_conversation<'a>(alloc: Global, cursor: &mut Cursor<'a>) -> Result<Conversation<'a>, Stop>
    ensures ok { IfOk result (λ conversation. Reads Part.Conversation (conversation_declaration conversation) cursor.old.point cursor.new.point) }
    ensures err { IfErr result (IsNotRead Part.Conversation cursor.old cursor.new) }
    ensures ending { cursor.new.ending ≡ cursor.old.ending }
    ensures shorter { OnOk result (length cursor.new.point.left < length cursor.old.point.left) }
{
    let name = cursor.take_named(Terminal::Conversation)?;
    cursor.take(Terminal::OpenParen)?;
    let members = read_names(alloc, cursor)?;
    cursor.take_two(Terminal::CloseParen, Terminal::Semicolon)?;
    Ok(Conversation { name, members })
}
