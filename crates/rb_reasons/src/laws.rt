//! What holds of the names.
ghost use Rattle.rb_reasons.specs.Laws.{NamesAll};

/// The names are those of the language: none of a fault or a cause is left out.
pub fn names_all()
    ensures { NamesAll }
{}
