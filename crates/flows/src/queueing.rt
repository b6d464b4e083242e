ghost use Rattle.std.specs.Prelude.{◌≡◌, ◌-◌, ◌<◌, ◌≤◌, [], ◌∷◌, IfOk, MatchOption};
ghost use Rattle.flows.specs.Limits.{most_flows};
ghost use Rattle.flows.specs.Pending.{pending};
ghost use Rattle.flows.specs.Queues.{joined, numbered};

use super::flow::FlowNumber;
use super::network::MOST_FLOWS;
use super::queue::Queue;
use circular_buffer::HeapCircularBuffer;
use std::alloc::{AllocError, Global};

impl Queue {
    // An empty queue.
    pub(super) fn new(heap: Global) -> Result<Queue, AllocError>
        ensures { IfOk result (λ q. pending q ≡ []) }
    {
        Ok(Queue {
            order: HeapCircularBuffer::with_capacity(heap, MOST_FLOWS as usize)?,
            waiting: vec![in heap; false; MOST_FLOWS as usize]?,
        })
    }

    // Appends a flow unless it waits already.
    pub(super) fn push(&mut self, number: FlowNumber)
        requires { number < most_flows }
        ensures { pending self.new ≡ joined (pending self.old) number }
    {
        if !self.waiting[number as usize] {
            self.waiting[number as usize] = true;
            self.order.push_back(number);
        }
    }

    // The flow that has waited longest, which leaves the queue.
    pub(super) fn pop(&mut self) -> Option<FlowNumber>
        ensures { MatchOption result ((pending self.old ≡ []) × (pending self.new ≡ [])) (λ i. pending self.old ≡ i ∷ pending self.new) }
    {
        let number = self.order.pop_front()?;
        self.waiting[number as usize] = false;
        Some(number)
    }

    // Appends the flows from one number up to another, in order, to an empty queue.
    pub(super) fn fill(&mut self, from: FlowNumber, to: FlowNumber)
        requires idle { pending self.old ≡ [] }
        requires few { to ≤ most_flows }
        ensures { pending self.new ≡ numbered from (to - from) }
    {
        for number in from..to {
            self.push(number);
        }
    }

    // Lets all flows go. Of the flags only theirs are set, and at the end of most runs few wait.
    pub(super) fn clear(&mut self)
        ensures { pending self.new ≡ [] }
    {
        for number in &self.order {
            self.waiting[*number as usize] = false;
        }
        self.order.clear();
    }
}
