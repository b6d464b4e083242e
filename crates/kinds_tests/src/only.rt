ghost use Rattle.std.specs.Prelude.{true, []};
ghost use Rattle.kinds_tests.specs.declared.only.Only.TheVariants.{Value};
ghost use Rattle.std.proofs.Common.{rules};

use kinds::kind::{Height, Kind, NameNumber, PlainKind};
use kinds::operators::OperatorNumber;

// The kind with one value and no name.
#[derive(Clone, Copy)]
pub enum Only {
    Value,
}

impl Kind for Only {
    ghost below = { λ _ _. true };

    ghost bottom = { Value };

    ghost join = { λ _ _. Value };

    ghost rank = { λ _. 0 };

    ghost height = { 0 };

    ghost operate = { λ _ _ _. Value };

    ghost names = { 0 };

    ghost spelling = { λ _. [] };

    ghost value = { λ _. Value };

    ghost lawful = { Prim.search rules };

    ghost limits = { Prim.search rules };

    fn bottom() -> Only {
        Only::Value
    }

    fn at_or_below(self, other: Only) -> bool {
        true
    }

    fn join(self, other: Only) -> Only {
        Only::Value
    }

    fn rank(self) -> Height {
        0
    }

    fn height() -> Height {
        Self::HEIGHT
    }

    fn operate(number: OperatorNumber, a: Only, b: Only) -> Only {
        Only::Value
    }

    fn names() -> NameNumber {
        Self::NAMES
    }

    fn spelling(number: NameNumber) -> &'static [u8] {
        b""
    }

    fn value(number: NameNumber) -> Only {
        Only::Value
    }
}

impl PlainKind for Only {
    const NAMES: NameNumber = 0;

    const HEIGHT: Height = 0;

    ghost NAMES = { 0 };

    ghost HEIGHT = { 0 };

    ghost stated = { Prim.search rules };

    ghost plain = { Prim.search rules };

    ghost distinct = { Prim.search rules };
}
