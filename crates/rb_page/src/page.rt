//! A page that is cut at its marks.

ghost use Rattle.std.specs.Prelude.{◌≡◌, ◌+◌, ◌≤◌, ◌++◌, length, IfSome};
ghost use Rattle.rb_outside.specs.Puts.{Puts};
ghost use Rattle.rb_page.specs.Escape.{escaped};
ghost use Rattle.rb_page.specs.Page.{place_of, cut_at, cut_from, parts_of, before_trace};

use crate::escape::put_escaped;
use rb_outside::{Failed, Sink, put_all};

/// A page, cut at its marks: each part but the last is what stands before a mark, behind the mark before it.
#[derive(Clone, Copy)]
pub struct Page<'a> {
    /// What stands before the source.
    pub source: &'a [u8],
    /// What stands before the schedule, behind the source.
    pub schedule: &'a [u8],
    /// What stands before the trace, behind the schedule.
    pub trace: &'a [u8],
    /// What stands behind the trace.
    pub rest: &'a [u8],
}

impl<'a> Page<'a> {
    /// Cuts a page at the first place of the mark of the source, of that of the schedule behind it, and of that of the trace behind this one.
    /// Where a mark is missing, all that is left stands before it.
    pub fn cut(page: &'a [u8]) -> Self
        ensures source { result.source.now ≡ (parts_of page.now).source }
        ensures schedule { result.schedule.now ≡ (parts_of page.now).schedule }
        ensures trace { result.trace.now ≡ (parts_of page.now).trace }
        ensures rest { result.rest.now ≡ (parts_of page.now).rest }
    {
        let (source, behind) = cut_at(page, b"@SOURCE@");
        let (schedule, behind) = cut_at(behind, b"@SCHEDULE@");
        let (trace, rest) = cut_at(behind, b"@TRACE@");
        Page {
            source,
            schedule,
            trace,
            rest,
        }
    }

    /// Writes the page up to the place of the trace, with the source and the schedule in their places.
    pub fn put_before_trace<S: Sink>(
        self,
        out: &mut S,
        source: &[u8],
        schedule: &[u8],
    ) -> Result<(), Failed>
        ensures { Puts (before_trace self.entry.source.now self.entry.schedule.now self.entry.trace.now source.now schedule.now)
            (S.written out.old) (S.written out.new) (S.faults out.old) (S.faults out.new) result }
    {
        put_with(out, self.source, source)?;
        put_between(out, self.schedule, schedule, self.trace)
    }
}

// Writes a part of a page, behind it a text as it stands in a page, and the next part.
fn put_between<S: Sink>(out: &mut S, part: &[u8], text: &[u8], next: &[u8]) -> Result<(), Failed>
    ensures { Puts ((part.now ++ escaped text.now) ++ next.now) (S.written out.old) (S.written out.new) (S.faults out.old) (S.faults out.new) result }
{
    put_with(out, part, text)?;
    put_all(out, next)
}

fn put_with<S: Sink>(out: &mut S, part: &[u8], text: &[u8]) -> Result<(), Failed>
    ensures { Puts (part.now ++ escaped text.now) (S.written out.old) (S.written out.new) (S.faults out.old) (S.faults out.new) result }
{
    put_all(out, part)?;
    put_escaped(out, text)
}

// What stands before and behind the first place of a mark. Where there is none, all stands before it.
fn cut_at<'a>(text: &'a [u8], mark: &[u8]) -> (&'a [u8], &'a [u8])
    ensures before { result.0.now ≡ (cut_at mark.now text.now).before }
    ensures behind { result.1.now ≡ (cut_at mark.now text.now).behind }
{
    let place = place_of(text, mark);
    cut_from(text, mark.len(), place)
}

// What stands before a place, and behind a mark of this length there.
fn cut_from(text: &[u8], size: usize, place: Option<usize>) -> (&[u8], &[u8])
    requires { IfSome place (λ at. at + size ≤ length text.now) }
    ensures before { result.0.now ≡ (cut_from size text.now place).before }
    ensures behind { result.1.now ≡ (cut_from size text.now place).behind }
{
    match place {
        Some(at) => (&text[..at], &text[at + size..]),
        None => (text, &[]),
    }
}

// The first place of a mark.
fn place_of(text: &[u8], mark: &[u8]) -> Option<usize>
    ensures place { result ≡ place_of mark.now text.now }
    ensures within { IfSome result (λ at. at + length mark.now ≤ length text.now) }
{
    let mut at = 0;
    let mut rest = text;
    while let [_, behind @ ..] = rest {
        if rest.starts_with(mark) {
            return Some(at);
        }
        rest = behind;
        at += 1;
    }
    None
}
