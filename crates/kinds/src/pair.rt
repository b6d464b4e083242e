ghost use Rattle.kinds.specs.Pairs.{side_by_side};
ghost use Rattle.std.proofs.Common.{rules};
ghost use Rattle.kinds.specs.PairRanks.{pair_ranks};

use super::kind::{Height, Kind, NameNumber, PlainKind};
use super::operators::OperatorNumber;

// Two kinds side by side: everything is done on each side for itself.
#[derive(Clone, Copy)]
pub struct Pair<A, B> {
    left: A,
    right: B,
}

impl<A: PlainKind, B: PlainKind> Kind for Pair<A, B> {
    ghost below = { (side_by_side A.Kind B.Kind).below };

    ghost bottom = { (side_by_side A.Kind B.Kind).bottom };

    ghost join = { (side_by_side A.Kind B.Kind).join };

    ghost rank = { (side_by_side A.Kind B.Kind).rank };

    ghost height = { (side_by_side A.Kind B.Kind).height };

    ghost operate = { (side_by_side A.Kind B.Kind).operate };

    ghost names = { (side_by_side A.Kind B.Kind).names };

    ghost spelling = { (side_by_side A.Kind B.Kind).spelling };

    ghost value = { (side_by_side A.Kind B.Kind).value };

    ghost lawful = { record { order = Prim.search rules; ranks = pair_ranks A.Kind.own B.Kind.own A.lawful B.lawful; operators = Prim.search rules; naming = Prim.search rules } };

    ghost limits = { Prim.search rules };

    fn bottom() -> Pair<A, B> {
        Pair {
            left: A::bottom(),
            right: B::bottom(),
        }
    }

    // Order and join on each side, which no derive gives.
    fn at_or_below(self, other: Pair<A, B>) -> bool {
        self.left.at_or_below(other.left) & self.right.at_or_below(other.right)
    }

    fn join(self, other: Pair<A, B>) -> Pair<A, B> {
        Pair {
            left: self.left.join(other.left),
            right: self.right.join(other.right),
        }
    }

    fn rank(self) -> Height {
        self.left.rank() + self.right.rank()
    }

    fn height() -> Height {
        A::plain_height() + B::plain_height()
    }

    fn operate(number: OperatorNumber, a: Pair<A, B>, b: Pair<A, B>) -> Pair<A, B> {
        Pair {
            left: A::operate(number, a.left, b.left),
            right: B::operate(number, a.right, b.right),
        }
    }

    fn names() -> NameNumber {
        A::plain_names() + B::plain_names()
    }

    fn spelling(number: NameNumber) -> &'static [u8] {
        let left_names = A::plain_names();
        if number < left_names {
            A::spelling(number)
        } else {
            B::spelling(number - left_names)
        }
    }

    fn value(number: NameNumber) -> Pair<A, B> {
        let left_names = A::plain_names();
        if number < left_names {
            Pair {
                left: A::value(number),
                right: B::bottom(),
            }
        } else {
            Pair {
                left: A::bottom(),
                right: B::value(number - left_names),
            }
        }
    }
}
