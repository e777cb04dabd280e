//! Names, and the conversations.

ghost use Rattle.std.specs.Prelude.{◌≡◌, ℕ, List, map};
ghost use Rattle.std.proofs.Common.{lit≤};
ghost use Rattle.rb_world.specs.Kind.{Membership};
ghost use Rattle.rb_world.specs.Text.{Naming, ProcessNaming, VariableNaming};
ghost use Rattle.rb_trace.specs.Naming.{naming, process_naming, variable_naming};
ghost use Rattle.rb_nest.specs.Groups.{membership};
ghost use Rattle.rb_image.specs.ReadParts.{group_at, names_at, process_names_at, variable_at};

use crate::FormRefusal;
use crate::read::list::{Item, Listed, read_few, read_few_texts};
use rb_base::{Group, Names, ProcessNames, Text, Variable};
use std::alloc::Global;

impl Listed for Variable {
    const LEAST: usize = 24;

    ghost LEAST = { 24 };

    ghost some = { lit≤ tt };
}

impl Item for Variable {
    ghost Plain = { VariableNaming };

    ghost plain = { variable_naming };

    ghost reading = { variable_at };

    #[tactic(auto, unfolding(crate::specs::ReadParts::variable_at))]
    fn read(alloc: Global, bytes: &[u8]) -> Result<(Self, &[u8]), FormRefusal> {
        let ((name, (at, size)), rest) = <(Text, (u32, Option<u32>))>::read(alloc, bytes)?;
        Ok((Variable { name, at, size }, rest))
    }
}

impl Item for ProcessNames {
    ghost Plain = { ProcessNaming };

    ghost plain = { process_naming };

    ghost reading = { process_names_at };

    #[tactic(auto, unfolding(crate::specs::ReadParts::process_names_at))]
    fn read(alloc: Global, bytes: &[u8]) -> Result<(Self, &[u8]), FormRefusal> {
        let ((name, variables), rest) = <(Text, Vec<Variable>)>::read(alloc, bytes)?;
        Ok((ProcessNames { name, variables }, rest))
    }
}

impl Item for Group {
    ghost Plain = { Membership × ℕ };

    ghost plain = { λ group. (membership group, group.alternates) };

    ghost reading = { group_at };

    #[tactic(auto, unfolding(crate::specs::ReadParts::group_at))]
    fn read(alloc: Global, bytes: &[u8]) -> Result<(Self, &[u8]), FormRefusal> {
        let ((members, (parent, alternates)), rest) = <(Vec<u32>, (Option<u32>, u32))>::read(
            alloc, bytes,
        )?;
        let group = Group {
            members,
            parent,
            alternates,
        };
        Ok((group, rest))
    }
}

/// The names that printed lines speak of.
impl Item for Names {
    ghost Plain = { Naming };

    ghost plain = { naming };

    ghost reading = { names_at };

    #[tactic(auto, unfolding(crate::specs::ReadParts::names_at))]
    fn read(alloc: Global, bytes: &[u8]) -> Result<(Self, &[u8]), FormRefusal> {
        let (processes, rest) = read_few(alloc, bytes, 16)?;
        let (channels, rest) = read_few_texts(alloc, rest)?;
        let (conversations, rest) = read_few_texts(alloc, rest)?;
        let names = Names {
            processes,
            channels,
            conversations,
        };
        Ok((names, rest))
    }
}
