//! What is carried out for the words of the command line.
ghost use Rattle.std.specs.Prelude.{◌≡◌, IfOk};
ghost use Rattle.rb_asking.specs.CommandLine.{plainly};
ghost use Rattle.rb_verdict.specs.Words.{request_for, request_with, usage_line, usage_of};
ghost use Rattle.rb_commands.specs.Asked.{asked};
ghost use Rattle.rb_commands.specs.Products.{request_over};

use crate::check::Check;
use crate::code::Code;
use crate::compile::Compile;
use crate::domino::Domino;
use crate::load::Load;
use crate::over_schedule::{OverSchedule, Product};
use crate::plain::Plain;
use crate::request::Request;
use crate::saying::Saying;
use crate::session::Session;
use crate::trial::Trial;
use rb_asking::{Asked, Words, asked_for};
use rb_base::Memory;
use std::alloc::Global;

/// What is carried out for these words: what they ask for, or else the line that shows the commands. `Memory` may come for any words.
pub fn requested(alloc: Global, words: &Words) -> Result<Request<'_>, Memory>
    ensures { IfOk result (λ request. request_for words.now ≡ asked request) }
{
    match asked_for(alloc, words)? {
        Some(given) => Ok(request_with(given)),
        None => Ok(usage()),
    }
}

/// The line that shows the commands.
pub fn usage() -> Request<'static>
    ensures { asked result ≡ usage_of usage_line }
{
    Request::Usage(Saying {
        text: b"usage: rbl run SOURCE SCHEDULE | survive SOURCE SCHEDULE | plain SOURCE RECORD | check SOURCE | code SOURCE | trial NUMBER | compile SOURCE | load IMAGE SCHEDULE | session SOURCE SCHEDULE SESSION | domino HISTORY | stuck SOURCE SCHEDULE\n",
    })
}

// What is carried out for a command with the words that it was given.
fn request_with(given: Asked<'_>) -> Request<'_>
    ensures { asked result ≡ request_with (plainly given.entry) }
{
    match given {
        Asked::Run(source, schedule) => over(Product::Text, source, schedule),
        Asked::Survive(source, schedule) => over(Product::Survivors, source, schedule),
        Asked::Plain(source, kept) => Request::Plain(Plain { source, kept }),
        Asked::Check(source) => Request::Check(Check { source }),
        Asked::Code(source) => Request::Code(Code { source }),
        Asked::Trial(number) => Request::Trial(Trial { number }),
        Asked::Compile(source) => Request::Compile(Compile { source }),
        Asked::Load(image, schedule) => Request::Load(Load { image, schedule }),
        Asked::Session(source, schedule, session) => Request::Session(Session {
            source,
            schedule,
            session,
        }),
        Asked::Domino(history) => Request::Domino(Domino { history }),
        Asked::Stuck(source, schedule) => over(Product::Standing, source, schedule),
    }
}

// A command over a source and a schedule for it.
fn over<'a>(product: Product, source: &'a str, schedule: &'a str) -> Request<'a>
    ensures { asked result ≡ request_over product source.now schedule.now }
{
    Request::OverSchedule(OverSchedule {
        product,
        source,
        schedule,
    })
}
