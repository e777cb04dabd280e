//! From a code and its conversations to the bytes of their image.

mod image;
mod instr;
mod list;
mod names;
mod number;
mod process;

ghost use Rattle.std.specs.Prelude.{OnOk};
ghost use Rattle.rb_outside.specs.Puts.{Puts};
ghost use Rattle.rb_code.specs.Instructions.Plain.{code as plain_code};
ghost use Rattle.rb_nest.specs.Groups.{alternates, memberships};
ghost use Rattle.rb_image.specs.Image.{image_of};
ghost use Rattle.rb_image.specs.Ranges.{InRanges};

use crate::write::image::{put_edition, put_lists};
use crate::write::list::put_list;
use rb_base::Nested;
use rb_code::Code;
use rb_outside::{Failed, Sink};

/// Writes the image of a code and of its conversations. After `Failed` a prefix of it was written. What is written whole is in its ranges,
/// so `read_image` gives this code and these conversations of it. It takes no memory.
pub fn write_image<S: Sink>(code: &Code, nested: &Nested, out: &mut S) -> Result<(), Failed>
    ensures text { Puts (image_of (plain_code code.now) (memberships nested.now) (alternates nested.now)) (S.written out.old)
        (S.written out.new) (S.faults out.old) (S.faults out.new) result }
    ensures ranges { OnOk result (InRanges (plain_code code.now) (memberships nested.now) (alternates nested.now)) }
{
    put_edition(out, code.edition)?;
    put_lists(out, code)?;
    put_list(out, &nested.conversations)
}
