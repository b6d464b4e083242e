ghost use Rattle.std.specs.Prelude.{◌≤◌, vec_capacity};

use flows::network::{Counts, Network};

pub const MOST_BINDERS: usize = 256;

// The variables of a type: level i is `first + i`, for i up to the depth.
#[derive(Clone, Copy, Debug, PartialEq, Eq)]
pub struct Levels {
    pub first: usize,
    pub depth: u8,
}

// Where a binder's mark stands, with its length, or where one would go.
#[derive(Clone, Copy, Debug, PartialEq, Eq)]
pub enum Spot {
    Stands(usize, usize),
    WouldGo(usize),
}

#[derive(Clone, Copy, Debug, PartialEq, Eq)]
pub struct Binder {
    pub levels: Levels,
    pub spot: Spot,
}

// An operand, an argument, a branch or a body: where its first token stands, and its type.
#[derive(Clone, Copy, Debug, PartialEq, Eq)]
pub struct Operand {
    pub place: usize,
    pub levels: Levels,
}

// How much is made, also what does not fit.
#[derive(Clone, Copy, Debug, PartialEq, Eq)]
pub struct Tally {
    pub variables: usize,
    pub flows: usize,
    pub bounds: usize,
    pub binders: usize,
}

// All that is made: the flows and bounds in the network and the binders in the table as far as they fit, and all counted.
// Meanwhile the network has as many variables as it can hold.
#[derive(Drop)]
pub struct Output {
    pub network: Network,
    pub binders: Vec<Binder>,
    pub made: Tally,
    ghost room: { 256 ≤ vec_capacity binders },
}

// How much there was before a declaration.
#[derive(Clone, Copy)]
pub struct Before {
    pub counts: Counts,
    pub binders: usize,
    pub made: Tally,
}
