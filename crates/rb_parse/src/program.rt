//! Programs, processes and procedures.
ghost use Rattle.std.specs.Prelude.{◌≡◌, ◌≤◌, ◌<◌, length, map, IfOk, IfErr, OnOk};
ghost use Rattle.rb_grammar.specs.Machine.{Reads};
ghost use Rattle.rb_grammar.specs.Parts.{Part};
ghost use Rattle.rb_grammar.specs.Reading.{IsNotRead};
ghost use Rattle.rb_syntax.specs.Plain.{procedure_declaration, process_declaration, tree};

use crate::connections::read_connections;
use crate::declarations::{read_declarations, read_parameters};
use crate::statements::{read_block, read_statements};
use crate::steps::{append, closed};
use rb_base::Edition;
use rb_grammar::{Cursor, Stop, Terminal};
use rb_syntax::{Procedure, Process, Program};
use std::alloc::Global;

/// Reads a whole program.
pub(crate) fn read_program<'a>(alloc: Global, cursor: &mut Cursor<'a>) -> Result<Program<'a>, Stop>
    ensures ok { IfOk result (λ program. Reads Part.Program (tree program) cursor.old.point cursor.new.point) }
    ensures err { IfErr result (IsNotRead Part.Program cursor.old cursor.new) }
    ensures ending { cursor.new.ending ≡ cursor.old.ending }
    ensures shorter { OnOk result (length cursor.new.point.left < length cursor.old.point.left) }
{
    if cursor.stands_at(Terminal::Edition) {
        cursor.take(Terminal::Edition)?;
        cursor.take_two(Terminal::Two, Terminal::Semicolon)?;
        read_unmarked(alloc, cursor, Edition::Second)
    } else {
        read_unmarked(alloc, cursor, Edition::First)
    }
}

fn read_unmarked<'a>(
    alloc: Global,
    cursor: &mut Cursor<'a>,
    edition: Edition,
) -> Result<Program<'a>, Stop>
    ensures ok { IfOk result (λ program. Reads (Part.Unmarked edition) (tree program) cursor.old.point cursor.new.point) }
    ensures err { IfErr result (IsNotRead (Part.Unmarked edition) cursor.old cursor.new) }
    ensures ending { cursor.new.ending ≡ cursor.old.ending }
    ensures shorter { OnOk result (length cursor.new.point.left < length cursor.old.point.left) }
{
    let name = cursor.take_named(Terminal::Program)?;
    cursor.take(Terminal::Semicolon)?;
    let connections = read_connections(alloc, cursor)?;
    let processes = read_processes(alloc, cursor, edition)?;
    cursor.take_two(Terminal::End, Terminal::Dot)?;
    Ok(Program {
        name,
        channels: connections.channels,
        conversations: connections.conversations,
        processes,
        names: cursor.names(),
        blocks: cursor.recoveries(),
        edition,
    })
}

fn read_processes<'a>(
    alloc: Global,
    cursor: &mut Cursor<'a>,
    edition: Edition,
) -> Result<Vec<Process<'a>>, Stop>
    ensures ok { IfOk result
        (λ processes. Reads (Part.Processes edition) (map process_declaration processes.items) cursor.old.point cursor.new.point) }
    ensures err { IfErr result (IsNotRead (Part.Processes edition) cursor.old cursor.new) }
    ensures ending { cursor.new.ending ≡ cursor.old.ending }
    ensures shorter { OnOk result (length cursor.new.point.left < length cursor.old.point.left) }
{
    let mut processes = Vec::new(alloc);
    'processes: loop {
        let process = read_process(alloc, cursor, edition)?;
        append(&mut processes, process)?;
        if !cursor.stands_at(Terminal::Process) {
            return Ok(processes);
        }
    }
}

fn read_process<'a>(
    alloc: Global,
    cursor: &mut Cursor<'a>,
    edition: Edition,
) -> Result<Process<'a>, Stop>
    ensures ok { IfOk result (λ process. Reads (Part.Process edition) (process_declaration process) cursor.old.point cursor.new.point) }
    ensures err { IfErr result (IsNotRead (Part.Process edition) cursor.old cursor.new) }
    ensures ending { cursor.new.ending ≡ cursor.old.ending }
    ensures shorter { OnOk result (length cursor.new.point.left < length cursor.old.point.left) }
{
    let name = cursor.take_named(Terminal::Process)?;
    cursor.take(Terminal::OpenBrace)?;
    let vars = read_declarations(alloc, cursor)?;
    let procedures = read_procedures(alloc, cursor, edition)?;
    let body = read_statements(alloc, cursor, edition)?;
    let process = Process {
        name,
        vars,
        procedures,
        body,
    };
    closed(cursor, process, Terminal::CloseBrace)
}

fn read_procedures<'a>(
    alloc: Global,
    cursor: &mut Cursor<'a>,
    edition: Edition,
) -> Result<Vec<Procedure<'a>>, Stop>
    ensures ok { IfOk result
        (λ procedures. Reads (Part.Procedures edition) (map procedure_declaration procedures.items) cursor.old.point cursor.new.point) }
    ensures err { IfErr result (IsNotRead (Part.Procedures edition) cursor.old cursor.new) }
    ensures ending { cursor.new.ending ≡ cursor.old.ending }
    ensures shorter { OnOk result (length cursor.new.point.left ≤ length cursor.old.point.left) }
{
    let mut procedures = Vec::new(alloc);
    'procedures: while cursor.stands_at(Terminal::Procedure) {
        let procedure = read_procedure(alloc, cursor, edition)?;
        append(&mut procedures, procedure)?;
    }
    Ok(procedures)
}

fn read_procedure<'a>(
    alloc: Global,
    cursor: &mut Cursor<'a>,
    edition: Edition,
) -> Result<Procedure<'a>, Stop>
    ensures ok { IfOk result (λ procedure. Reads (Part.Procedure edition) (procedure_declaration procedure) cursor.old.point cursor.new.point) }
    ensures err { IfErr result (IsNotRead (Part.Procedure edition) cursor.old cursor.new) }
    ensures ending { cursor.new.ending ≡ cursor.old.ending }
    ensures shorter { OnOk result (length cursor.new.point.left < length cursor.old.point.left) }
{
    let name = cursor.take_named(Terminal::Procedure)?;
    cursor.take(Terminal::OpenParen)?;
    let params = read_parameters(alloc, cursor)?;
    cursor.take(Terminal::CloseParen)?;
    let block = read_block(alloc, cursor, edition)?;
    Ok(Procedure {
        name,
        params,
        block,
    })
}
