//! Processes and their procedures, recovery blocks and channels.

ghost use Rattle.std.specs.Prelude.{◌≡◌, ℕ, List, map};
ghost use Rattle.std.proofs.Common.{lit≤};
ghost use Rattle.rb_world.specs.Kind.{Ends};
ghost use Rattle.rb_code.specs.Instructions.Plain.{Block, Part, Procedure, block, channel, part, procedure};
ghost use Rattle.rb_image.specs.Reading.{Gives};
ghost use Rattle.rb_image.specs.ReadParts.{block_at, channel_at, procedure_at, process_at};

use crate::FormRefusal;
use crate::read::list::{Item, Listed};
use rb_base::Text;
use rb_code::{BlockCode, ChannelCode, ProcedureCode, ProcessCode};
use std::alloc::Global;

impl Listed for ProcedureCode {
    const LEAST: usize = 16;

    ghost LEAST = { 16 };

    ghost some = { lit≤ tt };
}

impl Item for ProcedureCode {
    ghost Plain = { Procedure };

    ghost plain = { procedure };

    ghost reading = { procedure_at };

    #[tactic(auto, unfolding(crate::specs::ReadParts::procedure_at))]
    fn read(alloc: Global, bytes: &[u8]) -> Result<(Self, &[u8]), FormRefusal> {
        let ((name, start), rest) = <(Text, u32)>::read(alloc, bytes)?;
        Ok((ProcedureCode { name, start }, rest))
    }
}

impl Listed for ProcessCode {
    const LEAST: usize = 32;

    ghost LEAST = { 32 };

    ghost some = { lit≤ tt };
}

impl Item for ProcessCode {
    ghost Plain = { Part };

    ghost plain = { part };

    ghost reading = { process_at };

    #[tactic(auto, unfolding(crate::specs::ReadParts::process_at))]
    fn read(alloc: Global, bytes: &[u8]) -> Result<(Self, &[u8]), FormRefusal> {
        let (parts, rest) = <(u32, (u32, (Vec<u32>, Vec<ProcedureCode>)))>::read(alloc, bytes)?;
        let (start, (words, (channels, procedures))) = parts;
        let process = ProcessCode {
            start,
            words,
            channels,
            procedures,
        };
        Ok((process, rest))
    }
}

impl Listed for BlockCode {
    const LEAST: usize = 48;

    ghost LEAST = { 48 };

    ghost some = { lit≤ tt };
}

impl Item for BlockCode {
    ghost Plain = { Block };

    ghost plain = { block };

    ghost reading = { block_at };

    #[tactic(auto, unfolding(crate::specs::ReadParts::block_at))]
    fn read(alloc: Global, bytes: &[u8]) -> Result<(Self, &[u8]), FormRefusal> {
        let (parts, rest) = <(u32, (Option<u32>, (u32, (u32, (u32, Vec<u32>)))))>::read(
            alloc, bytes,
        )?;
        let (line, (conversation, (bound, (restart, (test, alternates))))) = parts;
        let block = BlockCode {
            line,
            conversation,
            bound,
            restart,
            test,
            alternates,
        };
        Ok((block, rest))
    }
}

impl Listed for ChannelCode {
    const LEAST: usize = 24;

    ghost LEAST = { 24 };

    ghost some = { lit≤ tt };
}

impl Item for ChannelCode {
    ghost Plain = { Ends };

    ghost plain = { channel };

    ghost reading = { channel_at };

    #[tactic(auto, unfolding(crate::specs::ReadParts::channel_at))]
    fn read(alloc: Global, bytes: &[u8]) -> Result<(Self, &[u8]), FormRefusal> {
        let ((sender, (receiver, size)), rest) = <(u32, (u32, u32))>::read(alloc, bytes)?;
        let channel = ChannelCode {
            sender,
            receiver,
            size,
        };
        Ok((channel, rest))
    }
}
