//! Laws of the code of accepted trees. These functions have no body, and each promises a law.

ghost use Rattle.rb_prepare.specs.SoundCode.{CodeOfAcceptedTreesIsSound, CodeOfAcceptedTreesIsWellFormed, MainBodiesAreReached};

/// The lists of code that stands for an accepted tree, and the conversations of the tree, are well formed.
pub fn code_of_accepted_trees_is_well_formed()
    ensures { CodeOfAcceptedTreesIsWellFormed }
{}

/// Such code is sound.
pub fn code_of_accepted_trees_is_sound()
    ensures { CodeOfAcceptedTreesIsSound }
{}

/// Each address of a main body of such code is reached.
pub fn main_bodies_are_reached()
    ensures { MainBodiesAreReached }
{}
