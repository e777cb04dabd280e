//! Laws of the faults in order: what holds of all trees. These functions have no body, and each promises a law.

ghost use Rattle.rb_faults.specs.Laws.{AreInOrder, EachIsTold, FirstIsTheRefusal, NoneIsTold};

/// Each fault of names and limits is told as often as the program has it.
pub fn each_is_told()
    ensures { EachIsTold }
{}

/// None comes before one that is told earlier.
pub fn are_in_order()
    ensures { AreInOrder }
{}

/// The first that is told is the one for which the program is refused.
pub fn first_is_the_refusal()
    ensures { FirstIsTheRefusal }
{}

/// None is told only where there is none.
pub fn none_is_told()
    ensures { NoneIsTold }
{}
