//! Processes and their procedures, recovery blocks and channels.

ghost use Rattle.rb_world.specs.Kind.{Ends};
ghost use Rattle.rb_code.specs.Instructions.Plain.{Block, Part, Procedure, block, channel, part, procedure};
ghost use Rattle.rb_image.specs.Image.{block as block_bytes, channel as channel_bytes, procedure as procedure_bytes, process as process_bytes};
ghost use Rattle.rb_image.specs.Ranges.{IsBlock, IsChannel, IsProcedure, IsProcess};

use crate::write::list::Spelled;
use rb_code::{BlockCode, ChannelCode, ProcedureCode, ProcessCode};
use rb_outside::{Failed, Sink};

impl Spelled for ProcedureCode {
    ghost Plain = { Procedure };

    ghost plain = { procedure };

    ghost bytes = { procedure_bytes };

    ghost Ranges = { IsProcedure };

    fn put<S: Sink>(&self, out: &mut S) -> Result<(), Failed> {
        (&self.name, &self.start).put(out)
    }
}

impl Spelled for ProcessCode {
    ghost Plain = { Part };

    ghost plain = { part };

    ghost bytes = { process_bytes };

    ghost Ranges = { IsProcess };

    fn put<S: Sink>(&self, out: &mut S) -> Result<(), Failed> {
        (
            &self.start,
            &(&self.words, &(&self.channels, &self.procedures)),
        )
            .put(out)
    }
}

impl Spelled for BlockCode {
    ghost Plain = { Block };

    ghost plain = { block };

    ghost bytes = { block_bytes };

    ghost Ranges = { IsBlock };

    fn put<S: Sink>(&self, out: &mut S) -> Result<(), Failed> {
        let places = (&self.restart, &(&self.test, &self.alternates));
        (&self.line, &(&self.conversation, &(&self.bound, &places))).put(out)
    }
}

impl Spelled for ChannelCode {
    ghost Plain = { Ends };

    ghost plain = { channel };

    ghost bytes = { channel_bytes };

    ghost Ranges = { IsChannel };

    fn put<S: Sink>(&self, out: &mut S) -> Result<(), Failed> {
        (&self.sender, &(&self.receiver, &self.size)).put(out)
    }
}
