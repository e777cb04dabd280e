//! A whole image.

ghost use Rattle.std.specs.Prelude.{◌≡◌, ℕ, List, ◌++◌, OnOk, map};
ghost use Rattle.std.specs.List.{AllByRecursion, zip};
ghost use Rattle.rb_outside.specs.Puts.{Puts};
ghost use Rattle.rb_trace.specs.Naming.{naming};
ghost use Rattle.rb_code.specs.Instructions.Plain.{block, channel, code as plain_code, part};
ghost use Rattle.rb_nest.specs.Groups.{alternates, memberships};
ghost use Rattle.rb_image.specs.Image.{block as block_bytes, channel as channel_bytes, code as code_bytes, edition_number, group, magic, process as process_bytes, process_names};
ghost use Rattle.rb_image.specs.Instrs.{instr};
ghost use Rattle.rb_image.specs.Pieces.{list, natural, text as text_bytes};
ghost use Rattle.rb_image.specs.Ranges.{IsCode};

use crate::write::list::Spelled;
use crate::write::number::put_natural;
use rb_base::{Edition, Nested};
use rb_code::Code;
use rb_outside::{Failed, Sink};
use rb_trace::line::put;

/// Writes the first bytes of an image, and its edition.
pub(crate) fn put_edition<S: Sink>(out: &mut S, edition: Edition) -> Result<(), Failed>
    ensures { Puts (magic ++ natural (edition_number edition)) (S.written out.old) (S.written out.new) (S.faults out.old)
        (S.faults out.new) result }
{
    put(out, b"RBL2")?;
    put_natural(out, number_of(edition))
}

fn number_of(edition: Edition) -> u32
    ensures { result ≡ edition_number edition }
{
    match edition {
        Edition::First => 1,
        Edition::Second => 2,
    }
}

/// Writes the lists of a code.
pub(crate) fn put_lists<S: Sink>(out: &mut S, code: &Code) -> Result<(), Failed>
    ensures text { Puts
        (list instr code.now.instrs.items
        ++ (list process_bytes (map part code.now.processes.items)
        ++ (list block_bytes (map block code.now.blocks.items)
        ++ (list channel_bytes (map channel code.now.channels.items)
        ++ (list text_bytes code.now.texts.items
        ++ (list process_names (naming code.now.names).processes
        ++ (list text_bytes code.now.names.channels.items ++ list text_bytes code.now.names.conversations.items)))))))
        (S.written out.old) (S.written out.new) (S.faults out.old) (S.faults out.new) result }
    ensures ranges { OnOk result (IsCode (plain_code code.now)) }
{
    let tables = (&code.blocks, &(&code.channels, &(&code.texts, &code.names)));
    (&code.instrs, &(&code.processes, &tables)).put(out)
}
