//! Laws of all histories. Their functions have no body, and promise the law.

ghost use Rattle.rb_domino.specs.Laws.{GreatestIsOne, HistoriesAreOrderly, LinesAreRecovered};

/// Each history is orderly.
pub fn histories_are_orderly()
    ensures { HistoriesAreOrderly }
{}

/// What a failure leaves is a consistent recovery line (Randell 1975), no consistent line is later at any process, and the
/// states that were given up are each state behind it, once, each of them forced.
pub fn lines_are_recovered()
    ensures { LinesAreRecovered }
{}

/// There is one greatest consistent line.
pub fn greatest_is_one()
    ensures { GreatestIsOne }
{}
