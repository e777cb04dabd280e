//! A source that is ready to be traced: its code, and where in the source each turn of the code stands.
ghost use Rattle.std.specs.Prelude.{◌≡◌, ◌≤◌, length, IfOk};
ghost use Rattle.rb_judge.specs.Judged.{IsJudged};
ghost use Rattle.rb_commands.specs.Held.{StopsForSource};
ghost use Rattle.rb_show.specs.Traced.{IsTraced};

use rb_base::{MOST_BYTES, Memory, Names, Place};
use rb_commands::Why;
use rb_commands::source::judge_source;
use rb_gen::generate;
use rb_hall::Stop;
use rb_judge::Judged;
use rb_picture::places_of;
use rb_prepare::Prepared;
use std::alloc::Global;

/// An accepted source as it is traced.
#[derive(Drop)]
pub struct Traced {
    /// Its code and its conversations.
    pub prepared: Prepared,
    /// The place of each turn of the code, by address.
    pub places: Vec<Option<Place>>,
}

impl Traced {
    /// The names alone; the rest is let go.
    pub fn into_names(self) -> Names
        ensures { result ≡ self.prepared.code.names }
    {
        self.prepared.into_names()
    }
}

/// Judges a source, and makes it ready.
pub fn trace_source(alloc: Global, text: &[u8]) -> Result<Traced, Stop<Why>>
    requires { length text.now ≤ MOST_BYTES }
    ensures traced { IfOk result (IsTraced text.now) }
    ensures refused { StopsForSource text.now result }
{
    let judged = judge_source(alloc, text)?;
    match with_code(alloc, text, judged) {
        Ok(traced) => Ok(traced),
        Err(_) => Err(Stop::Memory),
    }
}

// Makes the code, and finds its places. The bytes are seen by the contract alone.
fn with_code(alloc: Global, bytes: &[u8], judged: Judged<'_>) -> Result<Traced, Memory>
    requires { IsJudged bytes.now judged }
    ensures { IfOk result (IsTraced bytes.now) }
{
    let _ = bytes;
    let code = generate(alloc, &judged.checked)?;
    let places = places_of(alloc, &judged.checked.program, &code)?;
    Ok(Traced {
        prepared: Prepared {
            code,
            nested: judged.nested,
        },
        places,
    })
}
