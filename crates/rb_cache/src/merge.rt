//! Accepting the innermost level: its entries are merged into the level around it.

ghost use Rattle.std.specs.Prelude.{◌≡◌, ℕ, ◌+◌, ◌<◌, ◌≤◌, List, ◌∷◌, length, take, drop, reverse, vec_len, vec_capacity};
ghost use Rattle.std.specs.List.{AllByRecursion};
ghost use Rattle.rb_cache.specs.declared.entry.Entry.{Entry};
ghost use Rattle.rb_cache.specs.Regions.{merged};
ghost use Rattle.rb_cache.specs.Arena.{regions_of, Holds};
ghost use Rattle.rb_cache.specs.Merging.{so_far, merge_one, merge_all, innermost};

use crate::entry::{Entry, Mark};

/// Merges entry number `i`: it is kept, as entry number `kept`, or its stamp goes back.
fn merge_step(
    stamps: &mut Vec<usize>,
    arena: &mut Vec<Entry>,
    lower: Mark,
    kept: usize,
    i: usize,
) -> usize
    requires kept { kept ≤ i }
    requires i { i < length arena.old.items }
    requires within { AllByRecursion (λ (e : Entry). e.place < length stamps.old.items) (drop i arena.old.items) }
    ensures merged { (e : Entry) × (drop i arena.old.items ≡ e ∷ drop (i + 1) arena.old.items)
        × (so_far stamps.new.items result arena.new.items ≡ merge_one lower (so_far stamps.old.items kept arena.old.items) e) }
    ensures rest { drop (i + 1) arena.new.items ≡ drop (i + 1) arena.old.items }
    ensures size { length arena.new.items ≡ length arena.old.items }
    ensures stamps { length stamps.new.items ≡ length stamps.old.items }
    ensures room { vec_capacity arena.new ≡ vec_capacity arena.old }
    ensures stamps_room { vec_capacity stamps.new ≡ vec_capacity stamps.old }
    ensures from { kept ≤ result }
    ensures behind { result ≤ i + 1 }
{
    let place = arena[i].place;
    let earlier = arena[i].earlier;
    if place < lower.height && earlier <= lower.first {
        arena[kept] = arena[i];
        stamps[place as usize] = kept + 1;
        kept + 1
    } else {
        stamps[place as usize] = earlier;
        kept
    }
}

/// Merges the entries from `first` on into the level around theirs.
fn merge(stamps: &mut Vec<usize>, arena: &mut Vec<Entry>, lower: Mark, first: usize)
    requires first { first ≤ length arena.old.items }
    requires within { AllByRecursion (λ (e : Entry). e.place < length stamps.old.items) (drop first arena.old.items) }
    ensures merged { record { stamps = stamps.new.items; log = arena.new.items }
        ≡ merge_all lower (so_far stamps.old.items first arena.old.items) (drop first arena.old.items) }
    ensures room { vec_capacity arena.new ≡ vec_capacity arena.old }
    ensures stamps_room { vec_capacity stamps.new ≡ vec_capacity stamps.old }
{
    let mut kept = first;
    for i in first..arena.len() {
        kept = merge_step(stamps, arena, lower, kept, i);
    }
    arena.truncate(kept);
}

/// The innermost level's mark, or one with nothing below it.
fn top_of(marks: &[Mark]) -> Mark
    ensures { result ≡ innermost (reverse marks.now) }
{
    if marks.is_empty() {
        return Mark {
            first: 0,
            height: 0,
        };
    }
    marks[marks.len() - 1]
}

/// The innermost level goes, and is merged into the level around it.
pub fn accept_top(stamps: &mut Vec<usize>, arena: &mut Vec<Entry>, marks: &mut Vec<Mark>)
    requires some { 0 < length marks.old.items }
    requires holds { Holds (length stamps.old.items) (reverse marks.old.items) stamps.old.items arena.old.items }
    ensures holds { Holds (length stamps.old.items) (reverse marks.new.items) stamps.new.items arena.new.items }
    ensures regions { regions_of (reverse marks.new.items) arena.new.items ≡ merged (regions_of (reverse marks.old.items) arena.old.items) }
    ensures len { vec_len marks.new ≤ vec_len marks.old }
    ensures marks_room { vec_capacity marks.new ≡ vec_capacity marks.old }
    ensures arena_room { vec_capacity arena.new ≡ vec_capacity arena.old }
    ensures stamps_room { vec_capacity stamps.new ≡ vec_capacity stamps.old }
{
    let top = top_of(marks);
    marks.truncate(marks.len() - 1);
    let lower = top_of(marks);
    merge(stamps, arena, lower, top.first);
}
