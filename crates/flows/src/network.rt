ghost use Rattle.std.specs.Prelude.{◌≡◌, ℕ, ◌+◌, ◌*◌, ◌<◌, ◌≤◌, true, vec_len, vec_capacity, slice_index};
ghost use Rattle.flows.specs.Bounds.{bound};
ghost use Rattle.flows.specs.Flows.{flow, inside};
ghost use Rattle.flows.specs.Limits.{most_variables, most_flows, most_bounds};
ghost use Rattle.flows.specs.Reading.{filled, both_lists};

use super::flow::{Bound, BoundNumber, Flow, FlowNumber, Variable};
use super::readers::Readers;

pub const MOST_VARIABLES: Variable = 512;

pub const MOST_FLOWS: FlowNumber = 2048;

pub const MOST_BOUNDS: BoundNumber = 256;

// How much a network holds.
#[derive(Clone, Copy)]
pub struct Counts {
    pub variables: Variable,
    pub flows: FlowNumber,
    pub bounds: BoundNumber,
    ghost few_variables: { variables ≤ most_variables },
    ghost few_flows: { flows ≤ most_flows },
    ghost few_bounds: { bounds ≤ most_bounds },
}

// Flows and bounds on numbered variables, with the flows that read each variable. Every variable of a flow or bound is below
// the count of variables. All memory is got at first.
#[derive(Drop)]
pub struct Network {
    // Stays beside the tables and is written whole, a rule of the project: a small record, each count within its limit.
    pub(super) counts: Counts,
    pub(super) flows: Vec<Flow>,
    pub(super) bounds: Vec<Bound>,
    pub(super) readers: Readers,
    ghost flow_count: { vec_len flows ≡ counts.flows },
    ghost bound_count: { vec_len bounds ≡ counts.bounds },
    ghost flow_room: { most_flows ≤ vec_capacity flows },
    ghost bound_room: { most_bounds ≤ vec_capacity bounds },
    ghost closed: { (i : ℕ) → i < vec_len flows → inside counts.variables (flow flows.items i) ≡ true },
    ghost bounded: { (i : ℕ) → i < vec_len bounds → (bound bounds.items i).variable < counts.variables },
    ghost indexed: { filled readers ≡ both_lists flows.items },
}
