//! Declarations of variables, and lists of names.
ghost use Rattle.std.specs.Prelude.{◌≡◌, ◌≤◌, ◌<◌, length, map, IfOk, IfErr, OnOk};
ghost use Rattle.rb_grammar.specs.Machine.{Reads};
ghost use Rattle.rb_grammar.specs.Parts.{Part};
ghost use Rattle.rb_grammar.specs.Reading.{IsNotRead};
ghost use Rattle.rb_syntax.specs.Plain.{declaration, identifier};

use crate::steps::{append, closed};
use rb_grammar::{Cursor, Stop, Terminal, read_number};
use rb_syntax::{Name, Number, Var};
use std::alloc::Global;

/// Reads all declarations of variables that stand here.
pub(crate) fn read_declarations<'a>(
    alloc: Global,
    cursor: &mut Cursor<'a>,
) -> Result<Vec<Var<'a>>, Stop>
    ensures ok { IfOk result (λ vars. Reads Part.Declarations (map declaration vars.items) cursor.old.point cursor.new.point) }
    ensures err { IfErr result (IsNotRead Part.Declarations cursor.old cursor.new) }
    ensures ending { cursor.new.ending ≡ cursor.old.ending }
    ensures shorter { OnOk result (length cursor.new.point.left ≤ length cursor.old.point.left) }
{
    let mut vars = Vec::new(alloc);
    'vars: while cursor.stands_at(Terminal::Var) {
        let var = read_declaration(cursor)?;
        append(&mut vars, var)?;
    }
    Ok(vars)
}

fn read_declaration<'a>(cursor: &mut Cursor<'a>) -> Result<Var<'a>, Stop>
    ensures ok { IfOk result (λ var. Reads Part.Declaration (declaration var) cursor.old.point cursor.new.point) }
    ensures err { IfErr result (IsNotRead Part.Declaration cursor.old cursor.new) }
    ensures ending { cursor.new.ending ≡ cursor.old.ending }
    ensures shorter { OnOk result (length cursor.new.point.left < length cursor.old.point.left) }
{
    let name = cursor.take_named(Terminal::Var)?;
    let size = read_size(cursor)?;
    closed(cursor, Var { name, size }, Terminal::Semicolon)
}

fn read_size<'a>(cursor: &mut Cursor<'a>) -> Result<Option<Number>, Stop>
    ensures ok { IfOk result (λ size. Reads Part.Size (size) cursor.old.point cursor.new.point) }
    ensures err { IfErr result (IsNotRead Part.Size cursor.old cursor.new) }
    ensures ending { cursor.new.ending ≡ cursor.old.ending }
    ensures shorter { OnOk result (length cursor.new.point.left ≤ length cursor.old.point.left) }
{
    if cursor.stands_at(Terminal::OpenBracket) {
        cursor.take(Terminal::OpenBracket)?;
        let size = read_number(cursor)?;
        closed(cursor, Some(size), Terminal::CloseBracket)
    } else {
        Ok(None)
    }
}

/// Reads names with commas between them.
pub(crate) fn read_names<'a>(alloc: Global, cursor: &mut Cursor<'a>) -> Result<Vec<Name<'a>>, Stop>
    ensures ok { IfOk result (λ names. Reads Part.Names (map identifier names.items) cursor.old.point cursor.new.point) }
    ensures err { IfErr result (IsNotRead Part.Names cursor.old cursor.new) }
    ensures ending { cursor.new.ending ≡ cursor.old.ending }
    ensures shorter { OnOk result (length cursor.new.point.left < length cursor.old.point.left) }
{
    let mut names = Vec::new(alloc);
    'names: loop {
        let name = cursor.take_name()?;
        append(&mut names, name)?;
        if !cursor.stands_at(Terminal::Comma) {
            return Ok(names);
        }
        cursor.take(Terminal::Comma)?;
    }
}

/// Reads names with commas between them, if one stands here.
pub(crate) fn read_parameters<'a>(
    alloc: Global,
    cursor: &mut Cursor<'a>,
) -> Result<Vec<Name<'a>>, Stop>
    ensures ok { IfOk result (λ names. Reads Part.Parameters (map identifier names.items) cursor.old.point cursor.new.point) }
    ensures err { IfErr result (IsNotRead Part.Parameters cursor.old cursor.new) }
    ensures ending { cursor.new.ending ≡ cursor.old.ending }
    ensures shorter { OnOk result (length cursor.new.point.left ≤ length cursor.old.point.left) }
{
    if cursor.stands_at(Terminal::Name) {
        read_names(alloc, cursor)
    } else {
        Ok(Vec::new(alloc))
    }
}
