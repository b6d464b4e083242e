ghost use Rattle.std.specs.Prelude.{◌≡◌, []};
ghost use Rattle.flows.specs.Pending.{pending};

use super::queue::Queue;

// The memory of a run: a queue in which no flow waits before or after it.
#[derive(Drop)]
pub struct Worklist {
    pub(super) queue: Queue,
    ghost idle: { pending queue ≡ [] },
}
