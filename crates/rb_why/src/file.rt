//! Why a file is refused that has no line to point at.

ghost use Rattle.std.specs.Prelude.{◌≡◌, codes, [], IfOk};
ghost use Rattle.rb_base.specs.Words.{fault_word};
ghost use Rattle.rb_frame.specs.Frame.{framed_alone};
ghost use Rattle.rb_why.specs.Phrases.{long_words, sentence};

use crate::phrases::sentence;
use rb_base::{FaultName, Memory};
use rb_frame::frame::frame_alone;
use std::alloc::Global;

/// That a file has too many bytes.
pub fn long_reason(alloc: Global, file: &[u8]) -> Result<Vec<u8>, Memory>
    ensures { IfOk result (λ told. told.items ≡ framed_alone file.now (codes "L0") long_words) }
{
    frame_alone(
        alloc,
        file,
        b"L0",
        b"this file is too long: a text may have 1,048,576 bytes, and an image 16,777,216",
    )
}

/// Why a file is refused for a fault that has no place, as those of images.
pub fn file_reason(alloc: Global, file: &[u8], name: FaultName) -> Result<Vec<u8>, Memory>
    ensures { IfOk result (λ told. told.items ≡ framed_alone file.now (fault_word name) (sentence name [])) }
{
    let words = sentence(alloc, name, b"")?;
    frame_alone(alloc, file, name.word(), words.as_slice())
}
