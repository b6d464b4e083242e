ghost use Rattle.std.specs.Prelude.{◌≡◌, vec_len};
ghost use Rattle.flows.specs.Limits.{most_flows};
ghost use Rattle.flows.specs.Queues.{Marks};

use super::flow::FlowNumber;
use circular_buffer::HeapCircularBuffer;

// The flows that wait for an evaluation, oldest first, and a flag for each flow. Each flow waits at most once, so a buffer
// with a place for each is never full when one is added.
#[derive(Drop)]
pub(super) struct Queue {
    pub(super) order: HeapCircularBuffer<FlowNumber>,
    pub(super) waiting: Vec<bool>,
    ghost marks: { Marks order.items waiting.items },
    ghost placed: { order.capacity ≡ most_flows },
    ghost flagged: { vec_len waiting ≡ most_flows },
}
