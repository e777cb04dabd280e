//! A law of code, which stands here to carry its clause.

ghost use Rattle.rb_gen.specs.Laws.{HasCode};

/// Some code stands for each tree whose names are resolved and whose recovery blocks are numbered, whether memory is short or not.
pub fn has_code()
    ensures { HasCode }
{}
