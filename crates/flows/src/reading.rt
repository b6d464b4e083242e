ghost use Rattle.std.specs.Prelude.{◌≡◌, ◌<◌, length};
ghost use Rattle.flows.specs.Bounds.{bound};
ghost use Rattle.flows.specs.Flows.{flow};
ghost use Rattle.flows.specs.Networks.{contents, Counted};

use super::flow::{Bound, BoundNumber, Flow, FlowNumber};
use super::network::{Counts, Network};

impl Network {
    // How much it holds.
    pub fn counts(&self) -> Counts
        ensures { Counted (contents self.now) result }
    {
        self.counts
    }

    // The flow with a number. `bound` is alike but for the table and its definition.
    pub(super) fn flow(&self, number: FlowNumber) -> Flow
        requires { number < length (contents self.now).flows }
        ensures { result ≡ flow (contents self.now).flows number }
    {
        self.flows[number as usize]
    }

    // The bound with a number.
    pub(super) fn bound(&self, number: BoundNumber) -> Bound
        requires { number < length (contents self.now).bounds }
        ensures { result ≡ bound (contents self.now).bounds number }
    {
        self.bounds[number as usize]
    }
}
