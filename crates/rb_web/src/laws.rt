//! Laws of ends in memory. Their functions have no body, and promise the law.
ghost use Rattle.rb_web.specs.Laws.{TextsDecide};

/// A program ends over the texts that its words name, where all of these are there: with their verdict, written whole; with the status 4 and the
/// place full, where it was too small; or for want of memory.
pub fn texts_decide()
    ensures { TextsDecide }
{}
