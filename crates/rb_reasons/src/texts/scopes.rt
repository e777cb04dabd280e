//! The faults of names, sizes and scopes.
ghost use Rattle.std.specs.Prelude.{◌≡◌, map};
ghost use Rattle.rb_reasons.specs.Names.{name_of, of_scopes};

// Each text in the order of the names.
pub(crate) fn of_scopes() -> &'static [&'static [u8]]
    ensures { map (λ text. name_of text.now) result.now ≡ of_scopes }
{
    &[
        b"S1: a name is used that no scope around it declares
usually: a slip in the name, or a declaration in another process or another block
mend: declare it where it is used, or write it as it is declared
source:
program a; process p { x := 1; } end.
shows: refused S1 at 1:24
",
        b"S2: a name is declared a second time in one scope
usually: a part of a program was copied
mend: rename one of the two
source:
program a; process p { var x; var x; } end.
shows: refused S2 at 1:35
",
        b"S3: a name stands for something of another kind than is wanted here
usually: an array has no index, a scalar has one, or a variable of a block hides a procedure or a channel of its name
mend: look which declaration is the innermost one, and rename it or use it as what it is
source:
program a; process p { var x; x[0] := 1; } end.
shows: refused S3 at 1:31
",
        b"S4: a call has another number of arguments than its procedure has parameters
usually: a parameter was added to the procedure alone
mend: give each parameter one argument
source:
program a; process p { procedure f() { } call f(1); } end.
shows: refused S4 at 1:47
",
        b"S5: `prior` stands outside an acceptance test
usually: an old value was wanted in a statement
mend: keep the old value in a variable of your own; `prior` has its meaning in a test alone
source:
program a; process p { var x; x := prior x; } end.
shows: refused S5 at 1:36
",
        b"S6: an array's size is 0 or above 1,024
usually: an array was to be large enough for all cases
mend: choose a size from 1 to 1,024
source:
program a; process p { var a[0]; } end.
shows: refused S6 at 1:30
",
        b"S7: a process, channel, conversation, parameter or item is one too many
usually: a program was generated, or a `print` was to show a whole array
mend: leave some out; edition 2 has room for 64 processes
source:
program a; process p { print 1, 1, 1, 1, 1, 1, 1, 1, 1, 1, 1, 1, 1, 1, 1, 1, 1; } end.
shows: refused S7 at 1:78
",
        b"S8: a channel's size is 0 or above 65,536
usually: messages were to be handed over without a buffer
mend: choose a size from 1 to 65,536; with 1 a second message waits for the first one to be taken
source:
program a; channel c from p to q size 0; process p { } process q { } end.
shows: refused S8 at 1:39
",
        b"S9: a turn bound is 0 or above 1,000,000
usually: a block was to have no bound
mend: choose a bound from 1 to 1,000,000; n statements in a row need n + 2 turns
source:
program a; process p { ensure 1 within 0 by { } else error; } end.
shows: refused S9 at 1:40
",
        b"S10: the variables of a process are more numbers than it can have: 2,048, in edition 2 4,096
usually: several large arrays in one process
mend: make the arrays smaller, or give one to a process of its own
source:
program a; process p { var a[1024]; var b[1024]; var x; } end.
shows: refused S10 at 1:54
",
        b"S11: a quantified expression stands within two others
usually: three ranges were to be gone through at once
mend: work the innermost one out before, into a variable
source:
edition 2; program a; process p { print sum i from 0 to 1 : (sum j from 0 to 1 : (sum k from 0 to 1 : 1)); } end.
shows: refused S11 at 1:83
",
    ]
}
