//! Laws of traces. Their functions have no body, and promise the law.

ghost use Rattle.rb_picture.specs.Laws.{PlacesAreMeant, TraceIsMeant, TraceIsMeantWhere, TraceIsToldAsMeant};

/// Before each turn of every run the place that is told of the code of a tree is that of the statement which the meaning carries out.
pub fn places_are_meant()
    ensures { PlacesAreMeant }
{}

/// So with the places that are told the trace of the code of a tree is that of the tree's meaning, over every list of turns.
pub fn trace_is_told_as_meant()
    ensures { TraceIsToldAsMeant }
{}

/// With other places it is, where they are those that are meant.
pub fn trace_is_meant_where()
    ensures { TraceIsMeantWhere }
{}

/// So all their lines are the same but for the word of the place.
pub fn trace_is_meant()
    ensures { TraceIsMeant }
{}
