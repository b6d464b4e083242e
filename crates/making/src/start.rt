ghost use Rattle.std.specs.Prelude.{IfOk};
ghost use Rattle.rules.specs.Making.{nothing};
ghost use Rattle.making.specs.Settled.{Settled};

use super::output::{MOST_BINDERS, Output, Tally};
use flows::network::Network;
use std::alloc::{AllocError, Global};

impl Output {
    // Nothing is made yet. All memory is got here.
    pub fn new(heap: Global) -> Result<Output, AllocError>
        ensures { IfOk result (λ o. Settled o nothing) }
    {
        Ok(Output {
            network: Network::new(heap)?,
            binders: Vec::with_capacity(heap, MOST_BINDERS)?,
            made: Tally {
                variables: 0,
                flows: 0,
                bounds: 0,
                binders: 0,
            },
        })
    }
}
