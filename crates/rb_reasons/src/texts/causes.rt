//! The causes of rejections and errors.
ghost use Rattle.std.specs.Prelude.{◌≡◌, map};
ghost use Rattle.rb_reasons.specs.Names.{name_of, of_causes};

// Each text in the order of the names.
pub(crate) fn of_causes() -> &'static [&'static [u8]]
    ensures { map (λ text. name_of text.now) result.now ≡ of_causes }
{
    &[
        b"test: an acceptance test is 0
usually: the alternate did not do what the test asks for; that is what the test is for
mend: look at the variables of that turn in the picture of the run; `prior` has the values from before the block
source:
program a; process p { ensure 0 within 9 by { } else error; } end.
schedule:
p 9
shows: 3 reject p ensure 1 1 test
",
        b"fail: the statement `fail` was carried out
usually: an alternate finds by itself that it can't go on
mend: nothing, if the next alternate does better
source:
program a; process p { ensure 1 within 9 by { fail; } else by { } else error; } end.
schedule:
p 9
shows: 3 reject p ensure 1 1 fail
",
        b"overrun: an open block has used more turns than its bound
usually: the bound has no room for the start and the test, for a wait, or for a late member of a conversation
mend: count n statements in a row as n + 2 turns, and give a conversation time for its slowest member
source:
program a; process p { var x; ensure 1 within 2 by { x := 1; } else error; } end.
schedule:
p 9
shows: 4 reject p ensure 1 1 overrun
",
        b"zero: a division or a remainder by 0
usually: a variable is still 0: all of them begin so
mend: ask before: `x <> 0 and 9 / x > 1` divides by no 0
source:
program a; process p { var x; x := 1 / x; } end.
schedule:
p 1
shows: 1 error p zero
",
        b"overflow: a result does not fit into 64 bits
usually: a product or a sum grows in a loop; a partial result counts as well
mend: ask before, or take smaller numbers
source:
program a; process p { var x; x := 9223372036854775807 + 1; } end.
schedule:
p 1
shows: 1 error p overflow
",
        b"index: an array has no element of this index
usually: a loop goes one too far: the elements of `var a[3];` are a[0] to a[2]
mend: compare the loop's end with the size
source:
program a; process p { var a[3]; a[3] := 1; } end.
schedule:
p 1
shows: 1 error p index
",
        b"stack: the variables of a process, of its open blocks and its open calls are more numbers than it can have
usually: a procedure with an array calls itself
mend: declare the array in the process, and once
source:
program a; process p { var a[1024]; var b[1024]; if 1 { var x; x := 1; } } end.
schedule:
p 1
shows: 1 error p stack
",
        b"range: a quantified expression goes over more than 1,024 numbers
usually: one of its limits is a variable that has grown
mend: go through the range in parts, in a loop
source:
edition 2; program a; process p { print sum i from 1 to 2000 : i; } end.
schedule:
p 1
shows: 1 error p range
",
        b"calls: a call while 256 are open in the process
usually: a procedure that calls itself has no end
mend: let it end, or write a loop
source:
program a; process p { procedure f() { call f(); } call f(); } end.
schedule:
p 300
shows: 257 error p calls
",
        b"depth: the entry of a block while 32 are open in the process
usually: a procedure with a block calls itself inside it
mend: call it outside of the block
source:
program a; process p { procedure f() { ensure 1 within 999 by { call f(); } else error; } call f(); } end.
schedule:
p 99
shows: 98 reject p ensure 1 1 depth
",
        b"hold: a `print` with which the process would hold more than 65,536 bytes
usually: a loop prints inside a block, whose lines are all held until it is left
mend: print what came of it, behind the block
source:
program a; process p { ensure 1 within 999 by { while 1 { print \"tttttttttttttttttttttttttttttttttttttttttttttttttttttttttttttttttttttttttttttttttttttttttttttttttttttttttttttttttttttttttttttttttttttttttttttttttttttttttttttttttttttttttttttttttttttttttttttttttttttttttttttttttttttttttttttttttttttttttttttttttttttttttt\"; } } else error; } end.
schedule:
p 999
shows: 526 reject p ensure 1 1 hold
",
        b"inner: a block or a conversation inside has no alternate left
usually: all alternates of the inner one were rejected: look at the lines before for the causes
mend: give the inner one an alternate that can't fail, or let the outer one have a second
source:
program a; process p { ensure 1 within 30 by { ensure 0 within 9 by { } else error; } else by { } else error; } end.
schedule:
p 9
shows: 5 reject p ensure 1 1 inner
",
        b"broken: the entry of a conversation that is broken
usually: the conversation had no alternate left before this member came
mend: give it an alternate that can't fail, or put it into another conversation, which then is rejected in its place
source:
program w; conversation C (p, q);
process p { converse C ensure 0 within 9 by { } else error; }
process q { converse C ensure 1 within 9 by { } else error; } end.
schedule:
p 3
q 1
shows: 4 error q broken
",
    ]
}
