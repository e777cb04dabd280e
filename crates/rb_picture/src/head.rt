//! The head of a trace: what the program has, as far as its code tells.

ghost use Rattle.std.specs.Prelude.{◌≡◌, [], ◌∷◌, ◌++◌, codes, decimal, length, map, slice_get};
ghost use Rattle.std.specs.List.{flat_map};
ghost use Rattle.rb_outside.specs.Puts.{Puts};
ghost use Rattle.rb_code.specs.Instructions.Plain.{block as plain_block, channel as plain_channel, code as plain};
ghost use Rattle.std.specs.Option.{unwrap_or};
ghost use Rattle.rb_trace.specs.Lines.{spaced, spaced_word};
ghost use Rattle.rb_trace.specs.Naming.{naming, process_naming, variable_naming};
ghost use Rattle.rb_world.specs.Text.{line_of, process_word};
ghost use Rattle.rb_picture.specs.Head.{block_head, channel_head, conversation_head, conversation_or, edition_word, group_text, head_of, process_head, variable_head};
ghost use Rattle.rb_picture.specs.Heads.{meeting};
ghost use Rattle.rb_changes.specs.Numbered.{numbered};

use itoa::Buffer;
use rb_base::{Edition, Group, Names, Nested, ProcessNames, Text, Variable};
use rb_code::Code;
use rb_code::code::{BlockCode, ChannelCode};
use rb_outside::{Failed, Sink};
use rb_trace::line::{put, put_pieces};
use rb_trace::put_line;

/// Writes the head of the trace of a run of so many turns.
pub fn write_head<S: Sink>(
    out: &mut S,
    code: &Code,
    nested: &Nested,
    turns: u32,
) -> Result<(), Failed>
    ensures { Puts (head_of (plain code.now) (map meeting nested.now.conversations.items) turns) (S.written out.old)
        (S.written out.new) (S.faults out.old) (S.faults out.new) result }
{
    write_edition(out, code.edition)?;
    write_processes(out, &code.names.processes)?;
    write_channels(out, &code.names, &code.channels)?;
    write_meetings(out, code, nested, turns)
}

// Its conversations, its recovery blocks, and how many turns the run has.
fn write_meetings<S: Sink>(
    out: &mut S,
    code: &Code,
    nested: &Nested,
    turns: u32,
) -> Result<(), Failed>
    ensures { Puts (numbered (conversation_head (naming code.now.names)) 0 (map meeting nested.now.conversations.items)
        ++ (numbered (block_head (naming code.now.names)) 0 (map plain_block code.now.blocks.items) ++ line_of (codes "turns" ∷ decimal turns ∷ [])))
        (S.written out.old) (S.written out.new) (S.faults out.old) (S.faults out.new) result }
{
    write_conversations(out, &code.names, &nested.conversations)?;
    write_blocks(out, &code.names, &code.blocks)?;
    write_turns(out, turns)
}

fn write_edition<S: Sink>(out: &mut S, edition: Edition) -> Result<(), Failed>
    ensures { Puts (line_of (codes "trace" ∷ codes "1" ∷ []) ++ line_of (codes "edition" ∷ edition_word edition ∷ []))
        (S.written out.old) (S.written out.new) (S.faults out.old) (S.faults out.new) result }
{
    match edition {
        Edition::First => put(out, b"trace 1\nedition 1\n"),
        Edition::Second => put(out, b"trace 1\nedition 2\n"),
    }
}

fn write_turns<S: Sink>(out: &mut S, turns: u32) -> Result<(), Failed>
    ensures { Puts (line_of (codes "turns" ∷ decimal turns ∷ [])) (S.written out.old) (S.written out.new) (S.faults out.old)
        (S.faults out.new) result }
{
    let mut counts = Buffer::new();
    put_line(out, &[b"turns", counts.format(turns).as_bytes()])
}

// Each process, and its variables behind it.
fn write_processes<S: Sink>(out: &mut S, processes: &[ProcessNames]) -> Result<(), Failed>
    ensures { Puts (flat_map process_head (map process_naming processes.now)) (S.written out.old) (S.written out.new)
        (S.faults out.old) (S.faults out.new) result }
{
    for process in processes {
        write_process(out, process)?;
    }
    Ok(())
}

fn write_process<S: Sink>(out: &mut S, process: &ProcessNames) -> Result<(), Failed>
    ensures { Puts (process_head (process_naming process.now)) (S.written out.old) (S.written out.new) (S.faults out.old)
        (S.faults out.new) result }
{
    let name = process.name.as_bytes();
    put_line(out, &[b"process", name])?;
    write_variables(out, name, &process.variables)
}

fn write_variables<S: Sink>(
    out: &mut S,
    process: &[u8],
    variables: &[Variable],
) -> Result<(), Failed>
    ensures { Puts (flat_map (variable_head process.now) (map variable_naming variables.now)) (S.written out.old)
        (S.written out.new) (S.faults out.old) (S.faults out.new) result }
{
    for variable in variables {
        write_variable(out, process, variable)?;
    }
    Ok(())
}

fn write_variable<S: Sink>(out: &mut S, process: &[u8], variable: &Variable) -> Result<(), Failed>
    ensures { Puts (variable_head process.now (variable_naming variable.now)) (S.written out.old) (S.written out.new)
        (S.faults out.old) (S.faults out.new) result }
{
    match variable.size {
        None => put_variable(out, process, variable.name.as_bytes(), b"-"),
        Some(size) => {
            let mut sizes = Buffer::new();
            let size = sizes.format(size).as_bytes();
            put_variable(out, process, variable.name.as_bytes(), size)
        }
    }
}

fn put_variable<'w, S: Sink>(
    out: &mut S,
    process: &'w [u8],
    variable: &'w [u8],
    size: &'w [u8],
) -> Result<(), Failed>
    ensures { Puts (line_of (codes "var" ∷ process.now ∷ variable.now ∷ size.now ∷ [])) (S.written out.old) (S.written out.new)
        (S.faults out.old) (S.faults out.new) result }
{
    put_line(out, &[b"var", process, variable, size])
}

fn write_channels<S: Sink>(
    out: &mut S,
    names: &Names,
    channels: &[ChannelCode],
) -> Result<(), Failed>
    ensures { Puts (numbered (channel_head (naming names.now)) 0 (map plain_channel channels.now)) (S.written out.old)
        (S.written out.new) (S.faults out.old) (S.faults out.new) result }
{
    for (c, channel) in channels.iter().enumerate() {
        write_channel(out, names, c, channel)?;
    }
    Ok(())
}

fn write_channel<S: Sink>(
    out: &mut S,
    names: &Names,
    number: usize,
    channel: &ChannelCode,
) -> Result<(), Failed>
    ensures { Puts (channel_head (naming names.now) number (plain_channel channel.now)) (S.written out.old) (S.written out.new)
        (S.faults out.old) (S.faults out.new) result }
{
    let mut sizes = Buffer::new();
    let name = name_at(&names.channels, number);
    let sender = process_at(names, channel.sender);
    let receiver = process_at(names, channel.receiver);
    let size = sizes.format(channel.size).as_bytes();
    put_channel(out, name, sender, receiver, size)
}

fn put_channel<'w, S: Sink>(
    out: &mut S,
    name: &'w [u8],
    sender: &'w [u8],
    receiver: &'w [u8],
    size: &'w [u8],
) -> Result<(), Failed>
    ensures { Puts (line_of (codes "channel" ∷ name.now ∷ codes "from" ∷ sender.now ∷ codes "to" ∷ receiver.now ∷ codes "size" ∷ size.now ∷ []))
        (S.written out.old) (S.written out.new) (S.faults out.old) (S.faults out.new) result }
{
    put_line(
        out,
        &[
            b"channel", name, b"from", sender, b"to", receiver, b"size", size,
        ],
    )
}

fn write_conversations<S: Sink>(out: &mut S, names: &Names, groups: &[Group]) -> Result<(), Failed>
    ensures { Puts (numbered (conversation_head (naming names.now)) 0 (map meeting groups.now)) (S.written out.old)
        (S.written out.new) (S.faults out.old) (S.faults out.new) result }
{
    for (d, group) in groups.iter().enumerate() {
        write_conversation(out, names, d, group)?;
    }
    Ok(())
}

// A conversation's line ends with its members.
fn write_conversation<S: Sink>(
    out: &mut S,
    names: &Names,
    number: usize,
    group: &Group,
) -> Result<(), Failed>
    ensures { Puts (conversation_head (naming names.now) number (meeting group.now)) (S.written out.old) (S.written out.new)
        (S.faults out.old) (S.faults out.new) result }
{
    write_group(out, names, number, group)?;
    write_members(out, names, &group.members)?;
    put(out, b"\n")
}

fn write_group<S: Sink>(
    out: &mut S,
    names: &Names,
    number: usize,
    group: &Group,
) -> Result<(), Failed>
    ensures { Puts (group_text (naming names.now) number (meeting group.now)) (S.written out.old) (S.written out.new)
        (S.faults out.old) (S.faults out.new) result }
{
    let mut counts = Buffer::new();
    let name = name_at(&names.conversations, number);
    let parent = conversation_at(names, group.parent);
    let count = counts.format(group.alternates).as_bytes();
    put_group(out, name, parent, count)
}

fn put_group<'w, S: Sink>(
    out: &mut S,
    name: &'w [u8],
    parent: &'w [u8],
    count: &'w [u8],
) -> Result<(), Failed>
    ensures { Puts (flat_map (λ piece. piece) (codes "conversation " ∷ name.now ∷ codes " parent " ∷ parent.now ∷ codes " alternates " ∷ count.now ∷ codes " members" ∷ []))
        (S.written out.old) (S.written out.new) (S.faults out.old) (S.faults out.new) result }
{
    put_pieces(
        out,
        &[
            b"conversation ",
            name,
            b" parent ",
            parent,
            b" alternates ",
            count,
            b" members",
        ],
    )
}

// Each with a blank before it.
fn write_members<S: Sink>(out: &mut S, names: &Names, members: &[u32]) -> Result<(), Failed>
    ensures { Puts (spaced (map (process_word (naming names.now)) members.now)) (S.written out.old) (S.written out.new)
        (S.faults out.old) (S.faults out.new) result }
{
    for member in members {
        put_member(out, process_at(names, *member))?;
    }
    Ok(())
}

fn put_member<S: Sink>(out: &mut S, name: &[u8]) -> Result<(), Failed>
    ensures { Puts (spaced_word name.now) (S.written out.old) (S.written out.new) (S.faults out.old) (S.faults out.new) result }
{
    put(out, b" ")?;
    put(out, name)
}

fn write_blocks<S: Sink>(out: &mut S, names: &Names, blocks: &[BlockCode]) -> Result<(), Failed>
    ensures { Puts (numbered (block_head (naming names.now)) 0 (map plain_block blocks.now)) (S.written out.old)
        (S.written out.new) (S.faults out.old) (S.faults out.new) result }
{
    for (b, block) in blocks.iter().enumerate() {
        write_block(out, names, b, block)?;
    }
    Ok(())
}

fn write_block<S: Sink>(
    out: &mut S,
    names: &Names,
    number: usize,
    block: &BlockCode,
) -> Result<(), Failed>
    ensures { Puts (block_head (naming names.now) number (plain_block block.now)) (S.written out.old) (S.written out.new)
        (S.faults out.old) (S.faults out.new) result }
{
    let mut numbers = Buffer::new();
    let mut lines = Buffer::new();
    let mut bounds = Buffer::new();
    let mut counts = Buffer::new();
    let number = numbers.format(number).as_bytes();
    let line = lines.format(block.line).as_bytes();
    let bound = bounds.format(block.bound).as_bytes();
    let count = counts.format(count_of(&block.alternates)).as_bytes();
    let conversation = conversation_at(names, block.conversation);
    put_block(out, number, line, conversation, bound, count)
}

fn count_of(alternates: &[u32]) -> usize
    ensures { result ≡ length alternates.now }
{
    alternates.len()
}

fn put_block<'w, S: Sink>(
    out: &mut S,
    number: &'w [u8],
    line: &'w [u8],
    conversation: &'w [u8],
    bound: &'w [u8],
    count: &'w [u8],
) -> Result<(), Failed>
    ensures { Puts (line_of (codes "block" ∷ number.now ∷ codes "line" ∷ line.now ∷ codes "conversation" ∷ conversation.now
        ∷ codes "within" ∷ bound.now ∷ codes "alternates" ∷ count.now ∷ []))
        (S.written out.old) (S.written out.new) (S.faults out.old) (S.faults out.new) result }
{
    put_line(
        out,
        &[
            b"block",
            number,
            b"line",
            line,
            b"conversation",
            conversation,
            b"within",
            bound,
            b"alternates",
            count,
        ],
    )
}

/// The name of this number, and no bytes where there is none.
pub(crate) fn name_at(names: &[Text], number: usize) -> &[u8]
    ensures { result.now ≡ unwrap_or (slice_get names.now number) [] }
{
    match names.get(number) {
        Some(name) => name.as_bytes(),
        None => b"",
    }
}

/// The name of a process, and no bytes where there is none.
pub(crate) fn process_at(names: &Names, process: u32) -> &[u8]
    ensures { result.now ≡ process_word (naming names.now) process }
{
    match names.processes.get(process as usize) {
        Some(one) => one.name.as_bytes(),
        None => b"",
    }
}

// The name of a conversation, and `-` for none.
fn conversation_at(names: &Names, conversation: Option<u32>) -> &[u8]
    ensures { result.now ≡ conversation_or (naming names.now) conversation }
{
    match conversation {
        None => b"-",
        Some(d) => name_at(&names.conversations, d as usize),
    }
}
