//! Where the members of a conversation are, and how they go in, to the test line, and out.

ghost use Rattle.std.specs.Prelude.{◌≡◌, ◌<◌, IfOk, nat_eq, ◌&&◌, length, map, slice_get, Some};
ghost use Rattle.std.specs.List.{list_all, list_any};
ghost use Rattle.rb_conv.specs.Conversations.{is_within, is_at_line, goes, goes_if, outsider, all_outside, one_goes};
ghost use Rattle.rb_conv.specs.Reject.{off_line, goes_off_line};

use rb_base::Memory;
use std::alloc::Global;

/// Where a member of a conversation is.
#[derive(Clone, Copy)]
pub(crate) enum Place {
    Outside,
    Inside,
    AtLine,
}

impl Place {
    fn is_within(self) -> bool
        ensures { result ≡ is_within self }
    {
        match self {
            Place::Outside => false,
            Place::Inside | Place::AtLine => true,
        }
    }

    fn is_at_line(self) -> bool
        ensures { result ≡ is_at_line self }
    {
        match self {
            Place::AtLine => true,
            Place::Outside | Place::Inside => false,
        }
    }

    fn off_line(self) -> Self
        ensures { result ≡ off_line self }
    {
        match self {
            Place::Outside => Place::Outside,
            Place::Inside | Place::AtLine => Place::Inside,
        }
    }
}

/// A declared member of a conversation, and where it is.
#[derive(Clone, Copy)]
pub(crate) struct Member {
    pub(crate) process: u32,
    pub(crate) place: Place,
}

impl Member {
    fn outside(process: u32) -> Self
        ensures { result ≡ outsider process }
    {
        Member {
            process,
            place: Place::Outside,
        }
    }

    fn going(self, place: Place) -> Self
        ensures { result ≡ goes place self }
    {
        Member {
            process: self.process,
            place,
        }
    }

    fn going_off_line(self) -> Self
        ensures { result ≡ goes_off_line self }
    {
        self.going(self.place.off_line())
    }

    fn going_if(self, p: u32, place: Place) -> Self
        ensures { result ≡ goes_if p place self }
    {
        if self.process == p {
            return self.going(place);
        }
        self
    }
}

/// Members of which none is inside.
pub(crate) fn outsiders(alloc: Global, processes: &[u32]) -> Result<Vec<Member>, Memory>
    ensures { IfOk result (λ members. members.items ≡ map outsider processes.now) }
{
    let mut members = Vec::with_capacity(alloc, processes.len())?;
    for process in processes {
        members.push_reserved(Member::outside(*process));
    }
    Ok(members)
}

/// The process that is the member with a number.
pub(crate) fn process_of(members: &[Member], k: usize) -> u32
    requires { k < length members.now }
    ensures { slice_get (map (λ member. member.process) members.now) k ≡ Some result }
{
    members[k].process
}

/// Whether a process is inside.
pub(crate) fn is_inside(members: &[Member], p: u32) -> bool
    ensures { result ≡ list_any (λ member. nat_eq member.process p && is_within member.place) members.now }
{
    let mut rest = members;
    while let [member, after @ ..] = rest {
        if member.process == p && member.place.is_within() {
            return true;
        }
        rest = after;
    }
    false
}

/// Whether a process stands at the test line.
pub(crate) fn stands(members: &[Member], p: u32) -> bool
    ensures { result ≡ list_any (λ member. nat_eq member.process p && is_at_line member.place) members.now }
{
    let mut rest = members;
    while let [member, after @ ..] = rest {
        if member.process == p && member.place.is_at_line() {
            return true;
        }
        rest = after;
    }
    false
}

/// Whether every member stands at the test line.
pub(crate) fn all_stand(members: &[Member]) -> bool
    ensures { result ≡ list_all (λ member. is_at_line member.place) members.now }
{
    let mut rest = members;
    while let [member, after @ ..] = rest {
        if !member.place.is_at_line() {
            return false;
        }
        rest = after;
    }
    true
}

/// One process goes to a place.
#[tactic(auto, using(crate::proofs::Places::one_more))]
pub(crate) fn one_goes(members: &mut [Member], p: u32, place: Place)
    ensures { members.new ≡ one_goes p place members.old }
{
    for member in members.iter_mut() {
        *member = member.going_if(p, place);
    }
}

/// All leave.
#[tactic(auto, using(crate::proofs::Places::one_more))]
pub(crate) fn all_go_out(members: &mut [Member])
    ensures { members.new ≡ all_outside members.old }
{
    for member in members.iter_mut() {
        *member = member.going(Place::Outside);
    }
}

/// Whoever stands at the test line goes back inside.
#[tactic(auto, using(crate::proofs::Places::one_more))]
pub(crate) fn all_go_off_line(members: &mut [Member])
    ensures { members.new ≡ map goes_off_line members.old }
{
    for member in members.iter_mut() {
        *member = member.going_off_line();
    }
}
