ghost use Rattle.kinds.specs.SourceSets.{sources};
ghost use Rattle.std.proofs.Common.{rules};
ghost use Rattle.kinds.specs.SourceLaws;

use super::kind::{Height, Kind, NameNumber, PlainKind};
use super::operators::{ARITH, CHECK, CLOCK, DETECTOR, FIELD, MOVE, OperatorNumber};

// Which inputs a number depends on: a set of three flags (`loop` is a word of the language).
#[derive(Clone, Copy)]
pub struct Sources {
    form: bool,
    looped: bool,
    clock: bool,
}

const EMPTY: Sources = Sources {
    form: false,
    looped: false,
    clock: false,
};

impl Kind for Sources {
    ghost below = { sources.below };

    ghost bottom = { sources.bottom };

    ghost join = { sources.join };

    ghost rank = { sources.rank };

    ghost height = { sources.height };

    ghost operate = { sources.operate };

    ghost names = { sources.names };

    ghost spelling = { sources.spelling };

    ghost value = { sources.value };

    ghost lawful = { record { order = Prim.search rules; ranks = Prim.search rules; operators = SourceLaws.operators; naming = Prim.search rules } };

    ghost limits = { Prim.search rules };

    fn bottom() -> Sources {
        EMPTY
    }

    // Inclusion, which no derive gives. `&` and `|` have no branch, so the proof has one way.
    fn at_or_below(self, other: Sources) -> bool {
        (!self.form | other.form) & (!self.looped | other.looped) & (!self.clock | other.clock)
    }

    // The union, which no derive gives.
    fn join(self, other: Sources) -> Sources {
        Sources {
            form: self.form | other.form,
            looped: self.looped | other.looped,
            clock: self.clock | other.clock,
        }
    }

    fn rank(self) -> Height {
        u8::from(self.form) + u8::from(self.looped) + u8::from(self.clock)
    }

    fn height() -> Height {
        Self::HEIGHT
    }

    fn operate(number: OperatorNumber, a: Sources, b: Sources) -> Sources {
        match number {
            MOVE => a,
            ARITH | CHECK => a.join(b),
            FIELD => Sources { form: true, ..a },
            DETECTOR => Sources { looped: true, ..a },
            CLOCK => Sources { clock: true, ..a },
            _ => EMPTY,
        }
    }

    fn names() -> NameNumber {
        Self::NAMES
    }

    fn spelling(number: NameNumber) -> &'static [u8] {
        match number {
            0 => b"form",
            1 => b"loop",
            2 => b"clock",
            _ => b"",
        }
    }

    fn value(number: NameNumber) -> Sources {
        match number {
            0 => Sources {
                form: true,
                ..EMPTY
            },
            1 => Sources {
                looped: true,
                ..EMPTY
            },
            2 => Sources {
                clock: true,
                ..EMPTY
            },
            _ => EMPTY,
        }
    }
}

impl PlainKind for Sources {
    const NAMES: NameNumber = 3;

    const HEIGHT: Height = 3;

    ghost NAMES = { 3 };

    ghost HEIGHT = { 3 };

    ghost stated = { Prim.search rules };

    ghost plain = { Prim.search rules };

    ghost distinct = { Prim.search rules };
}
