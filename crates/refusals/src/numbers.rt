ghost use Rattle.std.specs.Prelude.{◌≡◌, ◌++◌};
ghost use Rattle.std.specs.Option.{option_to_list};
ghost use Rattle.refusals.specs.Refusals.{number_of, limit_number, values_of};
ghost use Rattle.refusals.specs.declared.refusal.Refusal.TheVariants.{Memory};

use super::refusal::{Limit, Refusal};
use std::alloc::{AllocError, AllocFailed};

// The longest text of a declaration, in bytes.
pub const LONGEST: usize = 4096;

impl Limit {
    // Its place, from 1, in the order in which limits are told.
    pub fn number(self) -> usize
        ensures { result ≡ limit_number self }
    {
        self as usize + 1
    }
}

impl Refusal {
    // The number of the cause; want of memory has none.
    pub fn number(self) -> Option<u8>
        ensures { result ≡ number_of self }
    {
        match self {
            Refusal::TooLong => Some(1),
            Refusal::NoToken(_) => Some(2),
            Refusal::Misplaced(_) => Some(3),
            Refusal::TooDeep(_) => Some(4),
            Refusal::NotInForce(_) => Some(5),
            Refusal::Unfit(_) => Some(6),
            Refusal::Passed(_) => Some(7),
            Refusal::Broken(_, _) => Some(8),
            Refusal::NoLevel(_) => Some(9),
            Refusal::TooShort(_) => Some(10),
            Refusal::NoneBroken => Some(11),
            Refusal::Memory => None,
        }
    }

    // The values returned with it: none, one or two.
    pub fn values(self) -> (Option<usize>, Option<usize>)
        ensures { option_to_list result.0 ++ option_to_list result.1 ≡ values_of self }
    {
        match self {
            Refusal::TooLong => (Some(LONGEST), None),
            Refusal::NoToken(place) => (Some(place), None),
            Refusal::Misplaced(place) => (Some(place), None),
            Refusal::TooDeep(place) => (Some(place), None),
            Refusal::NotInForce(place) => (Some(place), None),
            Refusal::Unfit(place) => (Some(place), None),
            Refusal::Passed(limit) => (Some(limit.number()), None),
            Refusal::Broken(bound, evaluations) => (Some(bound), Some(evaluations)),
            Refusal::NoLevel(depth) => (Some(depth), None),
            Refusal::TooShort(needed) => (Some(needed), None),
            Refusal::NoneBroken => (Some(0), None),
            Refusal::Memory => (None, None),
        }
    }
}

// For `?` after a call that finds no memory, which std tells by two types: each needs its own.
impl From<AllocError> for Refusal {
    ghost from_gives = { λ _ r. r ≡ Memory };

    fn from(_error: AllocError) -> Refusal {
        Refusal::Memory
    }
}

impl<T: Drop> From<AllocFailed<T>> for Refusal {
    ghost from_gives = { λ _ r. r ≡ Memory };

    fn from(_refused: AllocFailed<T>) -> Refusal {
        Refusal::Memory
    }
}
