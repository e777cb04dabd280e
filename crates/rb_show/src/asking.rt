//! What is carried out for the words of the command line.
ghost use Rattle.std.specs.Prelude.{◌≡◌, IfOk, Some};
ghost use Rattle.rb_asking.specs.Guides.{view_guides};
ghost use Rattle.rb_asking.specs.Views.{view_of};
ghost use Rattle.rb_asking.specs.ViewLine.{plainly};
ghost use Rattle.rb_reasons.specs.Names.{named};
ghost use Rattle.rb_verdict.specs.Words.{usage_of};
ghost use Rattle.rb_show.specs.Entrance.{view_wrong};
ghost use Rattle.rb_show.specs.Wished.{Carries, Explained, IsWished, help_in, said, task_of, usage_line};

use crate::explore::Explore;
use crate::faults::Faults;
use crate::page::Page;
use crate::request::Wish;
use crate::trace::Trace;
use rb_asking::misasked::misasked;
use rb_asking::{View, Words, guide_named, help, misnamed, version, view_for, view_guides};
use rb_base::Memory;
use rb_commands::saying::Saying;
use rb_reasons::{all_names, headlines, reason_of};
use std::alloc::Global;

/// The name of the program.
const PROGRAM: &str = "rblview";

/// What is carried out for these words: what they ask for; or the line that shows the commands, where they ask for nothing, or for what a name of
/// nothing means. `Memory` may come for any words.
pub fn requested(alloc: Global, words: &Words) -> Result<Wish<'_>, Memory>
    ensures { IfOk result (λ wish. IsWished (view_of words.now) (task_of wish)) }
{
    match view_for(alloc, words)? {
        Some(view) => wish_for(alloc, view),
        None => Ok(usage()),
    }
}

// What is carried out for a command.
fn wish_for(alloc: Global, view: View<'_>) -> Result<Wish<'_>, Memory>
    ensures { IfOk result (λ wish. IsWished (Some (plainly view.entry)) (task_of wish)) }
{
    Ok(match view {
        View::Explain(None) => Wish::Tell(headlines(alloc)?),
        View::Explain(Some(name)) => explained(name),
        View::Trace(source, schedule) => Wish::Trace(Trace { source, schedule }),
        View::Page(page, source, schedule) => Wish::Page(Page {
            page,
            source,
            schedule,
        }),
        View::Explore(source, number) => Wish::Explore(Explore { source, number }),
        View::Faults(source) => Wish::Faults(Faults { source }),
        View::Help(None) => Wish::Tell(help(alloc, view_guides(), PROGRAM, None)?),
        View::Help(Some(name)) => helped(alloc, name)?,
        View::Version => Wish::Tell(version(alloc, PROGRAM)?),
    })
}

// The line that shows the commands.
fn usage() -> Wish<'static>
    ensures { task_of result ≡ Carries (usage_of usage_line) }
{
    Wish::Usage(Saying {
        text: b"usage: rblview explain [NAME] | trace SOURCE SCHEDULE | page PAGE SOURCE SCHEDULE | explore SOURCE [K] | faults SOURCE | help [NAME] | version\n",
    })
}

// What the fault or the cause of a name means.
#[tactic(auto, using(crate::proofs::Wishes::explained_by, crate::proofs::Wishes::explained_none))]
fn explained(name: &str) -> Wish<'static>
    ensures { Explained (named name.now) (task_of result) }
{
    match reason_of(name.as_bytes()) {
        Some(text) => Wish::Explain(Saying { text }),
        None => usage(),
    }
}

// Help for the command of a name.
fn helped(alloc: Global, name: &str) -> Result<Wish<'static>, Memory>
    ensures { IfOk result (λ wish. task_of wish ≡ said (help_in view_guides (Some name.now))) }
{
    Ok(match guide_named(view_guides(), name) {
        Some(_) => Wish::Tell(help(alloc, view_guides(), PROGRAM, Some(name))?),
        None => usage(),
    })
}

/// What was wrong with these words, where they are shown the commands.
pub fn view_wrong(alloc: Global, words: &Words) -> Result<Vec<u8>, Memory>
    ensures { IfOk result (λ told. told.items ≡ view_wrong words.now (view_of words.now)) }
{
    match view_for(alloc, words)? {
        Some(View::Explain(Some(name))) => {
            misnamed(alloc, "fault or cause", PROGRAM, all_names(), name)
        }
        _ => misasked(alloc, view_guides(), PROGRAM, words),
    }
}
