//! The words that the host gives.
ghost use Rattle.std.specs.Prelude.{◌≡◌, ◌⊎◌, map, string_bytes, IfErr, MatchResult};
ghost use Rattle.std.specs.IoError.{error_kind};
ghost use Rattle.std.specs.Vec.Iter.{into_iter_items};
ghost use Rattle.rb_tell.specs.Given.{IsWordsOf, IsWithoutWords};

use rb_asking::Words;
use std::alloc::Global;
use std::env::Args;
use std::io::ErrorKind;
use std::rt::Env;
use std::{env, io};

/// The exit status where memory is wanting.
const NO_MEMORY: u8 = 5;

/// The exit status where the words of the command line are no text.
const NO_TEXT: u8 = 6;

/// The words of the command line behind the name of the program; or the exit status where memory is wanting for them, or where they are no text.
pub fn words_given<R: Env + AllocGlobal>(rt: &R) -> Result<Words, u8>
    ensures { IfErr result (λ number. (number ≡ 5) ⊎ (number ≡ 6)) }
{
    words_of(rt.alloc(), env::args(rt))
}

/// The same of what the system answered: all words behind the first, unless memory is wanting for them; where it gave no words, 5 if that was
/// for want of memory, and else 6.
pub fn words_of(alloc: Global, given: io::Result<Args>) -> Result<Words, u8>
    ensures words { MatchResult given (λ args. IsWordsOf (map string_bytes (into_iter_items args)) result)
        (λ error. IsWithoutWords (error_kind error ≡ ErrorKind.OutOfMemory) result) }
    ensures status { IfErr result (λ number. (number ≡ 5) ⊎ (number ≡ 6)) }
{
    match given {
        Ok(args) => match Words::after_name(alloc, args) {
            Ok(words) => Ok(words),
            Err(_) => Err(NO_MEMORY),
        },
        Err(error) if error.kind() == ErrorKind::OutOfMemory => Err(NO_MEMORY),
        Err(_) => Err(NO_TEXT),
    }
}
