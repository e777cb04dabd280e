//! The faults of schedules, records, sessions, histories and images.
ghost use Rattle.std.specs.Prelude.{◌≡◌, map};
ghost use Rattle.rb_reasons.specs.Names.{name_of, of_files};

// Each text in the order of the names.
pub(crate) fn of_files() -> &'static [&'static [u8]]
    ensures { map (λ text. name_of text.now) result.now ≡ of_files }
{
    &[
        b"T1: a line of a schedule is not a name and a count, nor empty
usually: a count was forgotten, or a comma stands between them
mend: write a process or `all`, a blank, and how many turns
source:
program a; process p { } end.
schedule:
p
shows: refused T1 at 1
",
        b"T2: a line of a schedule names no process of the program, and not `all`
usually: a process was renamed, or a schedule belongs to another program
mend: look at the names in the source; `x` and `X` differ
source:
program a; process p { } end.
schedule:
z 2
shows: refused T2 at 1
",
        b"T3: the count of a line is 0 or above 1,000,000
usually: a process was to have no turn
mend: leave its line out, or choose a count from 1 to 1,000,000
source:
program a; process p { } end.
schedule:
p 0
shows: refused T3 at 1
",
        b"T4: with this line the turns of a schedule are more than 1,000,000
usually: a schedule was to be long enough in any case
mend: shorten it; `rbl stuck` tells whether a longer one would do anything
source:
program a; process p { } end.
schedule:
p 1000000
p 1
shows: refused T4 at 2
",
        b"V1: a line of a record has another form, or its turn or its alternate is 0 or above 1,000,000
usually: a record was written by hand
mend: write the turn's number, the process, and for a start the alternate
source:
program a; process p { } end.
record:
0 p
shows: refused V1 at 1
",
        b"V2: a line of a record names no process of the program; `all` is none here
usually: a record belongs to another program
mend: look at the names in the source
source:
program a; process p { } end.
record:
1 all
shows: refused V2 at 1
",
        b"V3: a turn of a record is not above the one before
usually: lines of two records were joined
mend: put the turns in order
source:
program a; process p { } end.
record:
2 p
1 p
shows: refused V3 at 2
",
        b"V4: the plain run is stuck at this turn
usually: a record was shortened, or an alternate was changed whose test does not hold
mend: look what the process would do in this turn: wait, trap, fail its test, or nothing at all, since it is done
source:
program a; process p { var x; ensure x = 2 within 9 by { x := 1; } else by { x := 2; } else error; } end.
record:
1 p
2 p 1
3 p
4 p
shows: refused V4 at 4
",
        b"B1: a line of a session has another form, or its number is 0 or above 1,000,000
usually: a count was forgotten, or a process was named without `show`
mend: write `step N`, `back N` or `show P`
source:
program a; process p { } end.
schedule:
p 1
session:
step
shows: refused B1 at 1
",
        b"B2: a `show` names a process that the program does not have
usually: a process was renamed, or a variable was named
mend: look at the names in the source; `show` tells all variables of a process
source:
program a; process p { } end.
schedule:
p 1
session:
show z
shows: refused B2 at 1
",
        b"B3: a step past the schedule's last turn, or back past the first
usually: the schedule was shortened, or a step back is a turn too long
mend: count the turns of the lines before it, or make the schedule longer
source:
program a; process p { } end.
schedule:
p 1
session:
step 1
back 2
shows: refused B3 at 2
",
        b"H1: a line of a history has another form, or a name of more than 64 bytes
usually: a word is missing
mend: write `process P`, `point P`, `send M P Q`, `take M` or `fail P`
history:
point
shows: refused H1 at 1
",
        b"H2: a history names a process that no line before declares
usually: a line `process` was forgotten, or stands further down
mend: declare each process before it is named
history:
point p
shows: refused H2 at 1
",
        b"H3: a process is declared again, or a message is sent again under one name
usually: lines were copied
mend: choose another name
history:
process p
process p
shows: refused H3 at 2
",
        b"H4: a message is taken that was not sent before, or was taken already
usually: the `take` stands before its `send`
mend: send it before, and take each message once
history:
process p
take a
shows: refused H4 at 2
",
        b"H5: a line stands behind `fail`, or there is no `fail`
usually: the failure was left for later
mend: write `fail P` as the last line
history:
process p
shows: refused H5 at 2
",
        b"I1: the bytes of a file are no image of a compiled program
usually: a source was named where its image was meant, or a file was cut short
mend: compile the source again, and hand its image on whole
image:
RBL
shows: refused I1
",
        b"I2: a file has the form of an image, but its code is not sound
usually: a byte was changed on its way, or another program than this one made the image
mend: compile the source again; an image of a source that is accepted always has sound code
image of:
program a; process p { } end.
byte 20: 36
shows: refused I2
",
    ]
}
