//! Vectors as stacks.

ghost use Rattle.std.specs.Prelude.{◌≡◌, [], ◌∷◌, drop, MatchOption};
ghost use Rattle.rb_domino.specs.Board.{stack};

/// The last element.
#[tactic(auto, using(crate::proofs::Stacks::top_is))]
pub(crate) fn top<T: Copy>(items: &[T]) -> Option<T>
    ensures { MatchOption result (stack items.now ≡ []) (λ x. stack items.now ≡ x ∷ drop 1 (stack items.now)) }
{
    items.last().copied()
}
