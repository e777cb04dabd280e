//! What is true of the grammar and of the verdicts of texts.
ghost use Rattle.rb_grammar.specs.Laws.{DepthIsBounded, DepthIsReached, EndsTooEarly, FirstBadToken, HasOneTree, NamesAreThose, NamesCountUp, NamesInOrder, NamesRise, RecoveriesCountUp, RecoveriesInOrder, RecoveriesRise};
ghost use Rattle.rb_grammar.specs.VerdictLaws.{HasOneVerdict, HasVerdict, TreesAreShallow};

/// A text derives one tree at most.
pub fn has_one_tree()
    ensures { HasOneTree }
{}

/// Where the machine stops at a token, the tokens before it begin some text that derives a tree, and with it they
/// do not.
pub fn first_bad_token()
    ensures { FirstBadToken }
{}

/// Where it stops at the end, the tokens begin some text that derives a tree, and derive none themselves.
pub fn ends_too_early()
    ensures { EndsTooEarly }
{}

/// Each text has a tree, or a first fault.
pub fn has_verdict()
    ensures { HasVerdict }
{}

/// A text has one tree at most, one first fault at most, and never both.
pub fn has_one_verdict()
    ensures { HasOneVerdict }
{}

/// From left to right the names among the tokens are those of the tree, with its channels and conversations as the text
/// mixes them.
pub fn names_in_order()
    ensures { NamesInOrder }
{}

/// So the tree has these names and no others, each once.
pub fn names_are_those()
    ensures { NamesAreThose }
{}

/// They are numbered from 0 in the order of the text, and the tree tells how many there are.
pub fn names_count_up()
    ensures { NamesCountUp }
{}

/// In this order each stands before all later ones.
pub fn names_rise()
    ensures { NamesRise }
{}

/// From left to right the recovery blocks of a tree are the words `ensure` among its tokens.
pub fn recoveries_in_order()
    ensures { RecoveriesInOrder }
{}

/// They are numbered from 0 in this order, and the tree tells how many there are.
pub fn recoveries_count_up()
    ensures { RecoveriesCountUp }
{}

/// Each stands before all later ones.
pub fn recoveries_rise()
    ensures { RecoveriesRise }
{}

/// Where at most n brackets are open at any token, at most 9 n + 1 statements and expressions of the tree stand inside
/// each other.
pub fn depth_is_bounded()
    ensures { DepthIsBounded }
{}

/// No lower bound holds: with each number of brackets but 0 some tree is just so deep.
pub fn depth_is_reached()
    ensures { DepthIsReached }
{}

/// So in a text that is accepted at most 901 do, since at most 100 brackets may be open.
pub fn trees_are_shallow()
    ensures { TreesAreShallow }
{}
