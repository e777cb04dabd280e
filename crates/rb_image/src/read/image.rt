//! A whole image.

ghost use Rattle.std.specs.Prelude.{◌≡◌, ℕ, List, map, Some, None};
ghost use Rattle.std.specs.Option.{option_map};
ghost use Rattle.rb_base.specs.declared.edition.Edition.{Edition as PlainEdition};
ghost use Rattle.rb_world.specs.Kind.{Membership};
ghost use Rattle.rb_code.specs.Instructions.Plain.{Code as PlainCode, code as plain_code};
ghost use Rattle.rb_nest.specs.Groups.{membership};
ghost use Rattle.rb_image.specs.Reading.{Gives, few_at};
ghost use Rattle.rb_image.specs.ReadParts.{behind_magic, code_at, edition_at, group_at, image_at};

use crate::read::list::{Item, read_few};
use crate::read::number::read_word;
use crate::{FormRefusal, Raw};
use rb_base::{Edition, Names, Nested, Text};
use rb_code::{BlockCode, ChannelCode, Code, Instr, ProcessCode};
use std::alloc::Global;

const MAGIC: &[u8] = b"RBL2";

// The lists of a code before its names.
type Tables = (
    Vec<ProcessCode>,
    (Vec<BlockCode>, (Vec<ChannelCode>, Vec<Text>)),
);

/// The code and the conversations of all the bytes.
#[tactic(auto, unfolding(crate::specs::ReadParts::image_at))]
pub(crate) fn read_all(alloc: Global, bytes: &[u8]) -> Result<Raw, FormRefusal>
    ensures { Gives
        (λ raw. (plain_code raw.code, map (λ group. (membership group, group.alternates)) raw.nested.conversations.items))
        result (image_at bytes.now) }
{
    let Some(rest) = read_magic(bytes) else {
        return Err(FormRefusal::Form);
    };
    let ((code, nested), rest) = <(Code, Nested)>::read(alloc, rest)?;
    if !rest.is_empty() {
        return Err(FormRefusal::Form);
    }
    Ok(Raw { code, nested })
}

#[tactic(auto, unfolding(crate::specs::ReadParts::behind_magic))]
fn read_magic(bytes: &[u8]) -> Option<&[u8]>
    ensures { option_map (λ rest. rest.now) result ≡ behind_magic bytes.now }
{
    bytes.strip_prefix(MAGIC)
}

impl Item for Code {
    ghost Plain = { PlainCode };

    ghost plain = { plain_code };

    ghost reading = { code_at };

    #[tactic(auto, unfolding(crate::specs::ReadParts::code_at))]
    fn read(alloc: Global, bytes: &[u8]) -> Result<(Self, &[u8]), FormRefusal> {
        let (parts, rest) = <(Edition, (Vec<Instr>, (Tables, Names)))>::read(alloc, bytes)?;
        let (edition, (instrs, (tables, names))) = parts;
        let (processes, (blocks, (channels, texts))) = tables;
        let code = Code {
            edition,
            instrs,
            processes,
            blocks,
            channels,
            texts,
            names,
        };
        Ok((code, rest))
    }
}

impl Item for Edition {
    ghost Plain = { PlainEdition };

    ghost plain = { λ edition. edition };

    ghost reading = { edition_at };

    #[tactic(auto, unfolding(crate::specs::ReadParts::edition_at))]
    fn read(_alloc: Global, bytes: &[u8]) -> Result<(Self, &[u8]), FormRefusal> {
        let (number, rest) = read_word(bytes)?;
        match number {
            1 => Ok((Edition::First, rest)),
            2 => Ok((Edition::Second, rest)),
            _ => Err(FormRefusal::Form),
        }
    }
}

impl Item for Nested {
    ghost Plain = { List (Membership × ℕ) };

    ghost plain = { λ nested. map (λ group. (membership group, group.alternates)) nested.conversations.items };

    ghost reading = { few_at 24 group_at };

    fn read(alloc: Global, bytes: &[u8]) -> Result<(Self, &[u8]), FormRefusal> {
        let (conversations, rest) = read_few(alloc, bytes, 24)?;
        Ok((Nested { conversations }, rest))
    }
}
