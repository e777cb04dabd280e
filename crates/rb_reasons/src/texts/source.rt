//! The faults of files, tokens and the grammar.
ghost use Rattle.std.specs.Prelude.{◌≡◌, map};
ghost use Rattle.rb_reasons.specs.Names.{name_of, of_source};

// Each text in the order of the names.
pub(crate) fn of_source() -> &'static [&'static [u8]]
    ensures { map (λ text. name_of text.now) result.now ≡ of_source }
{
    &[
        b"L0: a file has more than 1,048,576 bytes
usually: a file was generated, or another file was named than was meant
mend: shorten the file; a loop says more than copies of a statement
blanks:
1048577
shows: refused L0
",
        b"X1: a byte stands where no token, blank or comment can have it
usually: a quote or a dash was pasted from a text that is not ASCII, or a `:` has no `=` behind it
mend: write the byte that was meant; in comments too there are printable ASCII bytes and tabs alone
source:
program a; process p { var x; x : 1; } end.
shows: refused X1 at 1:33
",
        b"X2: a text has no closing quote on its line
usually: a quote was forgotten, or a text goes on on the next line
mend: close the text on its line, and print two lines with two statements
source:
program a; process p { print \"x;  } end.
shows: refused X2 at 1:30
",
        b"X3: a number is above 9,223,372,036,854,775,807
usually: a number was to stand for no limit at all
mend: take a smaller one; the least number is written -9223372036854775807 - 1
source:
program a; process p { print 9223372036854775808; } end.
shows: refused X3 at 1:30
",
        b"X4: a text has more than 256 bytes between its quotes
usually: a whole sentence was to be printed
mend: split it into two items of the `print`, or into two lines
source:
program a; process p { print \"ttttttttttttttttttttttttttttttttttttttttttttttttttttttttttttttttttttttttttttttttttttttttttttttttttttttttttttttttttttttttttttttttttttttttttttttttttttttttttttttttttttttttttttttttttttttttttttttttttttttttttttttttttttttttttttttttttttttttttttttttttttttttttttttttt\"; } end.
shows: refused X4 at 1:30
",
        b"X5: a name has more than 64 bytes
usually: a name was generated
mend: shorten it
source:
program a; process p { var nnnnnnnnnnnnnnnnnnnnnnnnnnnnnnnnnnnnnnnnnnnnnnnnnnnnnnnnnnnnnnnnn; } end.
shows: refused X5 at 1:28
",
        b"Y1: no program goes on with this token, or the text ends too early
usually: a `;` is missing before it, the `else error;` of a recovery block, or a variable is declared behind a statement
mend: compare what stands before the place with the grammar in docs/LANGUAGE.md
source:
program a; process p { var x; x := 1 } end.
shows: refused Y1 at 1:38
",
        b"Y2: a bracket that would be right here is the 101st that is open
usually: an expression or a nest of blocks was generated
mend: give a part of the expression to a variable, or a part of the statements to a procedure
source:
program a; process p { var x; x := (((((((((((((((((((((((((((((((((((((((((((((((((((((((((((((((((((((((((((((((((((((((((((((((((((( } end.
shows: refused Y2 at 1:135
",
    ]
}
