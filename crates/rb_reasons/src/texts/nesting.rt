//! The faults of nesting.
ghost use Rattle.std.specs.Prelude.{◌≡◌, map};
ghost use Rattle.rb_reasons.specs.Names.{name_of, of_nesting};

// Each text in the order of the names.
pub(crate) fn of_nesting() -> &'static [&'static [u8]]
    ensures { map (λ text. name_of text.now) result.now ≡ of_nesting }
{
    &[
        b"N1: a `converse` stands inside an `ensure`, or in a procedure
usually: one process was to protect its part of a conversation by itself
mend: move it out, and put the `ensure` inside the conversation
source:
program a; conversation C (p, q);
process p { ensure 1 within 9 by { converse C ensure 1 within 9 by { } else error; } else error; }
process q { converse C ensure 1 within 9 by { } else error; } end.
shows: refused N1 at 2:45
",
        b"N2: a process has a `converse` for a conversation of which it is no member
usually: the process was not added to the members
mend: add it to the members, or take its `converse` away
source:
program a; conversation C (p, q);
process p { converse C ensure 1 within 9 by { } else error; }
process q { converse C ensure 1 within 9 by { } else error; }
process r { converse C ensure 1 within 9 by { } else error; } end.
shows: refused N2 at 4:22
",
        b"N3: a conversation stands inside another one that lacks one of its members
usually: members of the inner conversation were added later
mend: add the member to the outer one: else nobody could take it back with the others
source:
program a; conversation C (p, q); conversation D (p, r);
process p { converse C ensure 1 within 9 by { converse D ensure 1 within 9 by { } else error; } else error; }
process q { converse C ensure 1 within 9 by { } else error; }
process r { converse D ensure 1 within 9 by { } else error; } end.
shows: refused N3 at 2:56
",
        b"N4: a conversation stands inside another one for one member, and not so for another
usually: one member was to join later, from outside
mend: nest it in the same way for every member
source:
program a; conversation C (p, q); conversation D (p, q);
process p { converse C ensure 1 within 9 by { converse D ensure 1 within 9 by { } else error; } else error; }
process q { converse C ensure 1 within 9 by { } else error; converse D ensure 1 within 9 by { } else error; } end.
shows: refused N4 at 3:70
",
        b"N5: a `converse` has another number of alternates than the first one for its conversation
usually: an alternate was added for one member alone
mend: give all members the same number; an alternate may be empty: `else by { }`
source:
program a; conversation C (p, q);
process p { converse C ensure 1 within 9 by { } else error; }
process q { converse C ensure 1 within 9 by { } else by { } else error; } end.
shows: refused N5 at 3:22
",
        b"N6: a member has no `converse` for its conversation
usually: its part was not written yet
mend: write it, or take the process out of the members: nobody could leave without it
source:
program a; conversation C (p, q);
process p { converse C ensure 1 within 9 by { } else error; }
process q { } end.
shows: refused N6 at 1:31
",
        b"N7: a process has a second `converse` for a conversation
usually: a conversation was to be held twice
mend: put its one `converse` into a loop, or declare a second conversation
source:
program a; conversation C (p, q);
process p { converse C ensure 1 within 9 by { } else error; converse C ensure 1 within 9 by { } else error; }
process q { converse C ensure 1 within 9 by { } else error; } end.
shows: refused N7 at 2:70
",
        b"N8: a `send` or a `receive` stands in a procedure
usually: a procedure was to talk for its process
mend: let the procedure work out the value, and send it in the text of the process
source:
program a; channel c from p to q size 1;
process p { procedure f() { send c 1; } call f(); }
process q { } end.
shows: refused N8 at 2:34
",
        b"N9: a process sends on a channel whose sender it is not, or receives on one whose receiver it is not
usually: a channel was to go both ways
mend: look at its direction, and declare a second channel for the way back
source:
program a; channel c from p to q size 1;
process p { var x; receive c x; }
process q { } end.
shows: refused N9 at 2:28
",
        b"N10: inside a conversation, a message goes to a process that is no member, or comes from one
usually: a member was to report to somebody outside
mend: send it before or behind the conversation, or make that process a member
source:
program a; channel c from p to r size 1; conversation C (p, q);
process p { converse C ensure 1 within 9 by { send c 1; } else error; }
process q { converse C ensure 1 within 9 by { } else error; }
process r { } end.
shows: refused N10 at 2:52
",
        b"N11: a conversation names fewer than two members, or one of them twice
usually: members were taken away, or copied
mend: name each of two or more members once; one process alone has its `ensure`
source:
program a; conversation C (p); process p { converse C ensure 1 within 9 by { } else error; } end.
shows: refused N11 at 1:25
",
        b"N12: both ends of a channel are one process
usually: a process was to keep values for later
mend: keep them in variables
source:
program a; channel c from p to p size 1; process p { } end.
shows: refused N12 at 1:32
",
        b"N13: a `converse` stands inside eight others
usually: a program was generated
mend: nest less: a conversation behind another one does as well
source:
program a;
conversation C1 (p, q); conversation C2 (p, q); conversation C3 (p, q); conversation C4 (p, q); conversation C5 (p, q); conversation C6 (p, q); conversation C7 (p, q); conversation C8 (p, q); conversation C9 (p, q);
process p { converse C1 ensure 1 within 99 by { converse C2 ensure 1 within 99 by { converse C3 ensure 1 within 99 by { converse C4 ensure 1 within 99 by { converse C5 ensure 1 within 99 by { converse C6 ensure 1 within 99 by { converse C7 ensure 1 within 99 by { converse C8 ensure 1 within 99 by { converse C9 ensure 1 within 99 by { } else error; } else error; } else error; } else error; } else error; } else error; } else error; } else error; } else error; }
process q { converse C1 ensure 1 within 99 by { converse C2 ensure 1 within 99 by { converse C3 ensure 1 within 99 by { converse C4 ensure 1 within 99 by { converse C5 ensure 1 within 99 by { converse C6 ensure 1 within 99 by { converse C7 ensure 1 within 99 by { converse C8 ensure 1 within 99 by { converse C9 ensure 1 within 99 by { } else error; } else error; } else error; } else error; } else error; } else error; } else error; } else error; } else error; } end.
shows: refused N13 at 3:310
",
    ]
}
