ghost use Rattle.std.specs.Prelude.{◌≡◌, ℕ, ◌<◌, ◌≤◌, true, length};
ghost use Rattle.flows.specs.Networks.{contents};
ghost use Rattle.flows.specs.Pending.{pending};
ghost use Rattle.flows.specs.Queues.{waits};

use super::network::Network;
use super::queue::Queue;
use kinds::kind::Kind;

// A run in progress: the flows that wait are evaluated, oldest first, and raise the values. There is a value for each
// variable, and only flows of the network wait. Each reference has a lifetime of its own, since callers lend them apart.
#[derive(Drop)]
pub(super) struct Running<'n, 'v, 'q, K: Kind> {
    pub(super) network: &'n Network,
    pub(super) values: &'v mut [K],
    pub(super) queue: &'q mut Queue,
    ghost room: { (contents network.now).variables ≤ length values.now },
    ghost known: { (i : ℕ) → waits i (pending queue.now) ≡ true → i < length (contents network.now).flows },
}
