//! What is written here in place of what other languages write.

ghost use Rattle.std.specs.Prelude.{◌≡◌, map, option_map};
ghost use Rattle.rb_why.specs.Habits.{first_that_fits, fits, habit_words, of_marks, of_words, row_of, stands_here};

use crate::listed::is_among;
use rb_base::bytes::is_name;

/// A habit: the token before, what may stand here, what stands here instead, and what to write. Of the first two, nothing is anything.
#[derive(Clone, Copy)]
pub(crate) struct Habit {
    before: &'static [u8],
    wanted: &'static [u8],
    here: &'static [u8],
    words: &'static [u8],
}

/// Where a habit may show: the token before, what may stand here, the token that stands here, and the bytes from it on.
#[derive(Clone, Copy)]
pub(crate) struct Spot<'a> {
    pub(crate) before: &'a [u8],
    pub(crate) may: &'a [&'static [u8]],
    pub(crate) token: &'a [u8],
    pub(crate) bytes: &'a [u8],
}

/// What the first habit that fits says.
#[tactic(auto, using(crate::proofs::Habitual::in_first, crate::proofs::Habitual::in_second))]
pub(crate) fn habit_words(spot: Spot<'_>) -> Option<&'static [u8]>
    ensures { option_map (λ words. words.now) result ≡
        habit_words spot.entry.before.now (map (λ token. token.now) spot.entry.may.now) spot.entry.token.now spot.entry.bytes.now }
{
    match first_that_fits(of_marks(), spot) {
        Some(words) => Some(words),
        None => first_that_fits(of_words(), spot),
    }
}

// What the first of these says that fits.
fn first_that_fits(habits: &'static [Habit], spot: Spot<'_>) -> Option<&'static [u8]>
    ensures { option_map (λ words. words.now) result ≡
        first_that_fits (fits spot.entry.before.now (map (λ token. token.now) spot.entry.may.now) spot.entry.token.now spot.entry.bytes.now)
        (map row_of habits.now) }
{
    let mut rest = habits;
    while let [habit, after @ ..] = rest {
        if fits(*habit, spot) {
            return Some(habit.words);
        }
        rest = after;
    }
    None
}

fn fits(habit: Habit, spot: Spot<'_>) -> bool
    ensures { result ≡ fits spot.entry.before.now (map (λ token. token.now) spot.entry.may.now) spot.entry.token.now spot.entry.bytes.now (row_of habit) }
{
    (habit.before.is_empty() || habit.before == spot.before)
        && (habit.wanted.is_empty() || is_among(spot.may, habit.wanted))
        && stands_here(spot.token, spot.bytes, habit.here)
}

// A word stands here as the whole token, and marks as the first bytes.
fn stands_here(token: &[u8], bytes: &[u8], here: &[u8]) -> bool
    ensures { result ≡ stands_here token.now bytes.now here.now }
{
    if is_name(here) {
        token == here
    } else {
        bytes.starts_with(here)
    }
}

// Habits of marks. A typographic quote or dash, and a blank that breaks no line, begin with bytes that are no ASCII.
fn of_marks() -> &'static [Habit]
    ensures { map row_of result.now ≡ of_marks }
{
    &[
        Habit {
            before: b"",
            wanted: b"",
            here: b"!=",
            words: b"write `<>` for unequal",
        },
        Habit {
            before: b"",
            wanted: b"",
            here: b"!",
            words: b"write `not`, as in `not x = 1`",
        },
        Habit {
            before: b"",
            wanted: b"",
            here: b"&",
            words: b"write `and`",
        },
        Habit {
            before: b"",
            wanted: b"",
            here: b"|",
            words: b"write `or`",
        },
        Habit {
            before: b"",
            wanted: b"",
            here: b"'",
            words: b"a text stands between two `\"`",
        },
        Habit {
            before: b"",
            wanted: b"",
            here: b"\xE2\x80",
            words: b"write the quotes and dashes of ASCII: `\"` and `-`",
        },
        Habit {
            before: b"",
            wanted: b"",
            here: b"\xC2\xA0",
            words: b"a blank that breaks no line stands here: write a plain one",
        },
        Habit {
            before: b"",
            wanted: b"",
            here: b"//",
            words: b"a comment begins with `#` and ends with its line",
        },
        Habit {
            before: b"/",
            wanted: b"",
            here: b"/",
            words: b"a comment begins with `#` and ends with its line",
        },
        Habit {
            before: b"",
            wanted: b"",
            here: b"/*",
            words: b"a comment begins with `#` and ends with its line",
        },
        Habit {
            before: b"/",
            wanted: b"",
            here: b"*",
            words: b"a comment begins with `#` and ends with its line",
        },
        Habit {
            before: b"",
            wanted: b":=",
            here: b"=",
            words: b"write `:=` to assign, as in `x := 1;`",
        },
        Habit {
            before: b"=",
            wanted: b"",
            here: b"=",
            words: b"write one `=` to compare",
        },
        Habit {
            before: b"",
            wanted: b":=",
            here: b"++",
            words: b"write `x := x + 1;`",
        },
        Habit {
            before: b"",
            wanted: b":=",
            here: b"--",
            words: b"write `x := x - 1;`",
        },
        Habit {
            before: b"",
            wanted: b":=",
            here: b"+=",
            words: b"write `x := x + 1;`",
        },
        Habit {
            before: b"",
            wanted: b":=",
            here: b"-=",
            words: b"write `x := x - 1;`",
        },
        Habit {
            before: b"",
            wanted: b":=",
            here: b"*=",
            words: b"write `x := x * 2;`",
        },
        Habit {
            before: b"",
            wanted: b":=",
            here: b"/=",
            words: b"write `x := x / 2;`",
        },
        Habit {
            before: b"",
            wanted: b":=",
            here: b"(",
            words: b"write `call` before the name of a procedure",
        },
        Habit {
            before: b"}",
            wanted: b"",
            here: b";",
            words: b"no `;` stands behind a block",
        },
    ]
}

// Habits of words.
fn of_words() -> &'static [Habit]
    ensures { map row_of result.now ≡ of_words }
{
    &[
        Habit {
            before: b"else",
            wanted: b"",
            here: b"if",
            words: b"a block follows `else`: write `else { if x { } }`",
        },
        Habit {
            before: b"elif",
            wanted: b"",
            here: b"",
            words: b"a block follows `else`: write `else { if x { } }`",
        },
        Habit {
            before: b"elsif",
            wanted: b"",
            here: b"",
            words: b"a block follows `else`: write `else { if x { } }`",
        },
        Habit {
            before: b"elseif",
            wanted: b"",
            here: b"",
            words: b"a block follows `else`: write `else { if x { } }`",
        },
        Habit {
            before: b"",
            wanted: b"{",
            here: b"then",
            words: b"no `then` stands before a block",
        },
        Habit {
            before: b"",
            wanted: b"{",
            here: b"do",
            words: b"no `do` stands before a block",
        },
        Habit {
            before: b"",
            wanted: b"{",
            here: b"begin",
            words: b"a block stands between `{` and `}`",
        },
        Habit {
            before: b"",
            wanted: b"%",
            here: b"mod",
            words: b"write `%` for the remainder",
        },
        Habit {
            before: b"",
            wanted: b"/",
            here: b"div",
            words: b"write `/` for the quotient",
        },
        Habit {
            before: b"",
            wanted: b"",
            here: b"true",
            words: b"write 1 for true and 0 for false",
        },
        Habit {
            before: b"",
            wanted: b"",
            here: b"false",
            words: b"write 1 for true and 0 for false",
        },
        Habit {
            before: b"let",
            wanted: b":=",
            here: b"",
            words: b"a variable is declared by `var x;`, at the front of its block",
        },
        Habit {
            before: b"int",
            wanted: b":=",
            here: b"",
            words: b"a variable is declared by `var x;`, at the front of its block",
        },
        Habit {
            before: b"for",
            wanted: b":=",
            here: b"",
            words: b"write `while`: there is no `for`",
        },
        Habit {
            before: b"return",
            wanted: b":=",
            here: b"",
            words: b"there is no `return`: a procedure ends with its block",
        },
        Habit {
            before: b"break",
            wanted: b":=",
            here: b"",
            words: b"there is no `break`: a loop ends where its condition is 0",
        },
        Habit {
            before: b"every",
            wanted: b"[",
            here: b"",
            words: b"`every`, `some` and `sum` are words of edition 2: begin the source with `edition 2;`",
        },
        Habit {
            before: b"some",
            wanted: b"[",
            here: b"",
            words: b"`every`, `some` and `sum` are words of edition 2: begin the source with `edition 2;`",
        },
        Habit {
            before: b"sum",
            wanted: b"[",
            here: b"",
            words: b"`every`, `some` and `sum` are words of edition 2: begin the source with `edition 2;`",
        },
    ]
}
