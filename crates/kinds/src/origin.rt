ghost use Rattle.std.specs.Prelude.{◌≡◌};
ghost use Rattle.kinds.specs.Origins.{checked_by, origin};
ghost use Rattle.std.proofs.Common.{rules};
ghost use Rattle.kinds.specs.OriginLaws;

use super::kind::{Height, Kind, NameNumber, PlainKind};
use super::operators::{ARITH, CHECK, CLOCK, DETECTOR, FIELD, MOVE, OperatorNumber};

// How far a number can be relied on: a chain of three ranks.
#[derive(Clone, Copy, Debug, PartialEq, Eq, PartialOrd, Ord)]
pub enum Origin {
    Constant,
    Checked,
    Entered,
}

// The first number checked against the second: it counts as checked at most, unless the second itself was entered.
fn checked_against(a: Origin, b: Origin) -> Origin
    ensures { result ≡ checked_by a b }
{
    if b <= Origin::Checked {
        a.min(Origin::Checked)
    } else {
        Origin::Entered
    }
}

impl Kind for Origin {
    ghost below = { origin.below };

    ghost bottom = { origin.bottom };

    ghost join = { origin.join };

    ghost rank = { origin.rank };

    ghost height = { origin.height };

    ghost operate = { origin.operate };

    ghost names = { origin.names };

    ghost spelling = { origin.spelling };

    ghost value = { origin.value };

    ghost lawful = { record { order = Prim.search rules; ranks = Prim.search rules; operators = OriginLaws.operators; naming = Prim.search rules } };

    ghost limits = { Prim.search rules };

    fn bottom() -> Origin {
        Origin::Constant
    }

    fn at_or_below(self, other: Origin) -> bool {
        self <= other
    }

    fn join(self, other: Origin) -> Origin {
        self.max(other)
    }

    fn rank(self) -> Height {
        self as Height
    }

    fn height() -> Height {
        Self::HEIGHT
    }

    fn operate(number: OperatorNumber, a: Origin, b: Origin) -> Origin {
        match number {
            MOVE => a,
            ARITH => a.join(b),
            FIELD => Origin::Entered,
            DETECTOR | CLOCK => Origin::Checked,
            CHECK => checked_against(a, b),
            _ => Origin::Constant,
        }
    }

    fn names() -> NameNumber {
        Self::NAMES
    }

    fn spelling(number: NameNumber) -> &'static [u8] {
        match number {
            0 => b"checked",
            1 => b"entered",
            _ => b"",
        }
    }

    fn value(number: NameNumber) -> Origin {
        match number {
            0 => Origin::Checked,
            1 => Origin::Entered,
            _ => Origin::Constant,
        }
    }
}

impl PlainKind for Origin {
    const NAMES: NameNumber = 2;

    const HEIGHT: Height = 2;

    ghost NAMES = { 2 };

    ghost HEIGHT = { 2 };

    ghost stated = { Prim.search rules };

    ghost plain = { Prim.search rules };

    ghost distinct = { Prim.search rules };
}
