//! The words that ask for help or for the version.
ghost use Rattle.std.specs.Prelude.{◌≡◌, map, string_bytes};
ghost use Rattle.rb_asking.specs.Leading.{is_help, is_help_alone, is_version};

// Whether a first word asks for help.
pub(crate) fn is_help(word: &str) -> bool
    ensures { result ≡ is_help word.now }
{
    word == "help" || word == "--help" || word == "-h"
}

// Whether a first word asks for the version.
pub(crate) fn is_version(word: &str) -> bool
    ensures { result ≡ is_version word.now }
{
    word == "version" || word == "--version"
}

// Whether the words behind a first are one alone that asks how that command is used. `help` is none: it may be a word of the command.
pub(crate) fn is_help_alone(words: &[String]) -> bool
    ensures { result ≡ is_help_alone (map string_bytes words.now) }
{
    match words {
        [word] => word.as_str() == "--help" || word.as_str() == "-h",
        _ => false,
    }
}
