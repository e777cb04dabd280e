//! The levels of operators.
/// How strongly operators bind, from the weakest on. Those of one level make one chain; a comparison, which stands
/// between `and` and the sums, has one operator at most and is no level.
#[derive(Clone, Copy)]
pub enum Level {
    /// `or`
    Disjunction,
    /// `and`
    Conjunction,
    /// `+` and `-`
    Sum,
    /// `*`, `/` and `%`
    Product,
}
