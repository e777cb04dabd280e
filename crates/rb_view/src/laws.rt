//! The law of traces of the code of accepted sources. Its function has no body, and promises the law.

ghost use Rattle.rb_prepare.specs.Laws.{OfEveryCode};
ghost use Rattle.rb_view.specs.Laws.{TracesAsMeant};

/// The trace of whatever code stands for an accepted source is that of its meaning, to the last byte.
pub fn code_traces_as_meant()
    ensures { OfEveryCode TracesAsMeant }
{}
