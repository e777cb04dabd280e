//! From bytes to the code and the conversations of which they are the image.

mod image;
mod instr;
mod list;
mod names;
mod number;
mod process;
mod sample;

ghost use Rattle.std.specs.Prelude.{IfErr, IfOk};
ghost use Rattle.rb_code.specs.Instructions.Plain.{code as plain_code};
ghost use Rattle.rb_nest.specs.Groups.{alternates, memberships};
ghost use Rattle.rb_image.specs.Laws.{IsImage, IsRefused};

use crate::read::image::read_all;
use crate::{FormRefusal, Raw};
use std::alloc::Global;

/// The code and the conversations of which the bytes are the image; `Form` where they are the image of none, and `Memory` where memory is
/// wanting. It takes no more memory than the code and the conversations have, and as much time as there are bytes.
pub fn read_image(alloc: Global, bytes: &[u8]) -> Result<Raw, FormRefusal>
    ensures image { IfOk result (λ raw. IsImage bytes.now (plain_code raw.code) (memberships raw.nested) (alternates raw.nested)) }
    ensures refused { IfErr result (IsRefused bytes.now) }
{
    read_all(alloc, bytes)
}
