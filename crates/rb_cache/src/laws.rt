//! Laws of the copies that an open level stands for. Its functions do nothing, and each promises a law.

ghost use Rattle.rb_cache.specs.Laws.{CopiesAreUndone, HeightsAreLengths, GrowingKeepsCopies, ShrinkingKeepsCopies};

/// The copy of a level is what undoing the regions as far out as that level makes of the words.
pub fn copies_are_undone()
    ensures { CopiesAreUndone }
{}

/// The height of a level is the length of its copy.
pub fn heights_are_lengths()
    ensures { HeightsAreLengths }
{}

/// More words change no copy.
pub fn growing_keeps_copies()
    ensures { GrowingKeepsCopies }
{}

/// Fewer words, but as many as in each copy, change no copy.
pub fn shrinking_keeps_copies()
    ensures { ShrinkingKeepsCopies }
{}
