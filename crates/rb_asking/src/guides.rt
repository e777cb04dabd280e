//! How the commands of `rbl` and of `rblview` are used.
ghost use Rattle.std.specs.Prelude.{◌≡◌, map};
ghost use Rattle.rb_asking.specs.Guides.{command_guides, guide_of, plain_guides, view_guides};

/// How a command is used.
#[derive(Clone, Copy)]
pub struct Guide {
    /// Its name.
    pub name: &'static str,
    /// The words that it takes, by what they name.
    pub takes: &'static [&'static str],
    /// One word more, if there is one that may be left out.
    pub last: Option<&'static str>,
    /// What it does, in a few words.
    pub does: &'static str,
    /// A line for a shell that shows it.
    pub example: &'static str,
}

static COMMANDS: [Guide; 11] = [
    Guide {
        name: "run",
        takes: &["SOURCE", "SCHEDULE"],
        last: None,
        does: "what a program prints, turn by turn over a schedule",
        example: "rbl run examples/recovery.rbl examples/recovery.schedule",
    },
    Guide {
        name: "survive",
        takes: &["SOURCE", "SCHEDULE"],
        last: None,
        does: "which turns of that run survived, as a record",
        example: "rbl survive examples/step1.rbl examples/step1.schedule",
    },
    Guide {
        name: "plain",
        takes: &["SOURCE", "RECORD"],
        last: None,
        does: "what those turns do by themselves, where nothing is undone",
        example: "rbl plain examples/step1.rbl examples/step1.record",
    },
    Guide {
        name: "check",
        takes: &["SOURCE"],
        last: None,
        does: "whether a program is accepted, and else its first fault",
        example: "rbl check examples/step1.rbl",
    },
    Guide {
        name: "code",
        takes: &["SOURCE"],
        last: None,
        does: "the code that a program is compiled to",
        example: "rbl code examples/step1.rbl",
    },
    Guide {
        name: "trial",
        takes: &["NUMBER"],
        last: None,
        does: "a run of a program that is made from a number",
        example: "rbl trial 7",
    },
    Guide {
        name: "compile",
        takes: &["SOURCE"],
        last: None,
        does: "a program as an image",
        example: "rbl compile examples/step1.rbl > step1.image",
    },
    Guide {
        name: "load",
        takes: &["IMAGE", "SCHEDULE"],
        last: None,
        does: "what a program prints that was compiled",
        example: "rbl compile examples/step1.rbl | rbl load /dev/stdin examples/step1.schedule",
    },
    Guide {
        name: "session",
        takes: &["SOURCE", "SCHEDULE", "SESSION"],
        last: None,
        does: "a run that is stepped forth and back",
        example: "rbl session examples/step3.rbl examples/step3.schedule examples/step3.session",
    },
    Guide {
        name: "domino",
        takes: &["HISTORY"],
        last: None,
        does: "how far processes go back that have no conversations",
        example: "rbl domino examples/domino.history",
    },
    Guide {
        name: "stuck",
        takes: &["SOURCE", "SCHEDULE"],
        last: None,
        does: "whether anything can still go on after a run, and who waits for what",
        example: "rbl stuck examples/deadlock.rbl examples/deadlock.schedule",
    },
];

static VIEWS: [Guide; 7] = [
    Guide {
        name: "explain",
        takes: &[],
        last: Some("NAME"),
        does: "what a fault or a cause means, or the names of all",
        example: "rblview explain S1",
    },
    Guide {
        name: "trace",
        takes: &["SOURCE", "SCHEDULE"],
        last: None,
        does: "what each turn of a run did",
        example: "rblview trace examples/step1.rbl examples/step1.schedule",
    },
    Guide {
        name: "page",
        takes: &["PAGE", "SOURCE", "SCHEDULE"],
        last: None,
        does: "a page that shows a run in a browser",
        example: "rblview page view/page.html examples/step4.rbl examples/step4.schedule > step4.html",
    },
    Guide {
        name: "explore",
        takes: &["SOURCE"],
        last: Some("NUMBER"),
        does: "what a program comes to over all schedules, or a schedule that leads there",
        example: "rblview explore examples/step5.rbl",
    },
    Guide {
        name: "faults",
        takes: &["SOURCE"],
        last: None,
        does: "all faults of names, limits and nesting of a program, each with its reason",
        example: "rblview faults examples/faults/three.rbl",
    },
    Guide {
        name: "help",
        takes: &[],
        last: Some("NAME"),
        does: "how a command is used, or all of them",
        example: "rblview help trace",
    },
    Guide {
        name: "version",
        takes: &[],
        last: None,
        does: "which version this is, and what is proved of it",
        example: "rblview version",
    },
];

// How many of those take plain words alone; options stand for the others too.
const PLAIN: usize = 5;

/// The commands of `rbl`.
pub fn command_guides() -> &'static [Guide]
    ensures { map guide_of result.now ≡ command_guides }
{
    &COMMANDS
}

/// The commands of `rblview`.
pub fn view_guides() -> &'static [Guide]
    ensures { map guide_of result.now ≡ view_guides }
{
    &VIEWS
}

/// Those that take plain words alone.
pub(crate) fn plain_guides() -> &'static [Guide]
    ensures { map guide_of result.now ≡ plain_guides }
{
    &VIEWS[..PLAIN]
}
