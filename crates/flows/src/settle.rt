ghost use Rattle.std.specs.Prelude.{◌≤◌, length};
ghost use Rattle.flows.specs.Networks.{contents};
ghost use Rattle.flows.specs.Settling.{Settles};

use super::flow::FlowNumber;
use super::network::Network;
use super::queue::Queue;
use super::running::Running;
use super::worklist::Worklist;
use kinds::kind::Kind;
use std::alloc::{AllocError, Global};

impl Worklist {
    // All memory that runs need.
    pub fn new(heap: Global) -> Result<Worklist, AllocError> {
        Ok(Worklist {
            queue: Queue::new(heap)?,
        })
    }

    // Runs the flows from number `from` on, queued in order, to the end. Answers the number of evaluations.
    pub fn settle<K: Kind>(
        &mut self,
        network: &Network,
        values: &mut [K],
        from: FlowNumber,
    ) -> usize
        requires { (contents network.now).variables ≤ length values.old }
        ensures { Settles K.Kind (contents network.now).flows from values.old result values.new }
    {
        self.queue.fill(from, network.counts.flows);
        let mut run = Running {
            network,
            values,
            queue: &mut self.queue,
        };
        run.finish()
    }
}
