// Why a parser stops.
ghost use Rattle.std.specs.Prelude.{◌≡◌};
ghost use Rattle.pieces.specs.declared.fault.Fault.TheVariants.{Memory};
ghost use Rattle.pieces.specs.Faults.{refusal_of};

use refusals::refusal::Refusal;
use std::alloc::{AllocError, AllocFailed};

// A part of the refusals, so that no other can come from a parser.
#[derive(Clone, Copy, Debug, PartialEq)]
pub enum Fault {
    // no declaration goes on with the token at this place
    Misplaced(usize),
    // the token at this place opens a level too many
    TooDeep(usize),
    Memory,
}

// For `?` after a call that finds no memory, which std tells by two types: each needs its own.
impl From<AllocError> for Fault {
    ghost from_gives = { λ _ r. r ≡ Memory };

    fn from(_error: AllocError) -> Fault {
        Fault::Memory
    }
}

impl<T: Drop> From<AllocFailed<T>> for Fault {
    ghost from_gives = { λ _ r. r ≡ Memory };

    fn from(_refused: AllocFailed<T>) -> Fault {
        Fault::Memory
    }
}

impl From<Fault> for Refusal {
    ghost from_gives = { λ fault r. r ≡ refusal_of fault };

    fn from(fault: Fault) -> Refusal {
        match fault {
            Fault::Misplaced(place) => Refusal::Misplaced(place),
            Fault::TooDeep(place) => Refusal::TooDeep(place),
            Fault::Memory => Refusal::Memory,
        }
    }
}
