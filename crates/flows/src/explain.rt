ghost use Rattle.std.specs.Prelude.{◌≡◌, ℕ, ◌<◌, ◌≤◌, true, length, slice_set};
ghost use Rattle.flows.specs.Bounds.{Unbroken, Tested};
ghost use Rattle.flows.specs.Explaining.{bottoms, Traced, Explained};
ghost use Rattle.flows.specs.Flows.{held};
ghost use Rattle.flows.specs.Limits.{most_flows};
ghost use Rattle.flows.specs.Networks.{contents};
ghost use Rattle.flows.specs.Pending.{pending};
ghost use Rattle.flows.specs.Running.{Continues};

use super::flow::{BoundNumber, FlowNumber};
use super::network::Network;
use super::running::Running;
use super::worklist::Worklist;
use kinds::kind::Kind;

// The bound that is broken first, if any, and how many flows rise on the way.
#[derive(Clone, Copy)]
pub struct Explanation {
    pub bound: Option<BoundNumber>,
    pub rises: usize,
}

// Gives every variable bottom.
fn reset<K: Kind>(values: &mut [K])
    ensures { values.new ≡ bottoms K.Kind (length values.old) }
{
    // Not by `fill`: of a `Kind` it is not known that a clone is the value itself.
    values.fill_with(
        ||
            ensures { result ≡ K.bottom }
        { K::bottom() },
    );
}

// Writes a flow's number to a list that may have no place for it.
fn note(list: &mut [FlowNumber], place: usize, number: FlowNumber)
    ensures { list.new ≡ slice_set list.old place number }
{
    // Not by `get_mut`: once its loan ends nothing is known of a slice's other entries, so the contract is not proved.
    if place < list.len() {
        list[place] = number;
    }
}

impl<K: Kind> Running<'_, '_, '_, K> {
    // The lowest bound that is broken now.
    fn first_broken(&self) -> Option<BoundNumber>
        ensures { Tested K.Kind (contents self.now.network.now).bounds (held K.Kind self.now.values.now) result }
    {
        self.network.first_broken(self.values)
    }

    // Goes on up to the first rise after which a bound is broken, and lists the rises.
    fn trace(&mut self, list: &mut [FlowNumber]) -> Explanation
        requires { Unbroken K.Kind (contents self.old.network.now).bounds (held K.Kind self.old.values.now) }
        ensures continues { Continues K.Kind self.old self.new }
        ensures traced { Traced K.Kind (contents self.old.network.now).flows (contents self.old.network.now).bounds self.old.values.now (pending self.old.queue.now) result.bound result.rises list.old list.new self.new.values.now }
    {
        let mut rises = 0;
        // It stays a `loop` that breaks with the bound, a rule of the project.
        let bound = loop {
            let Some(number) = self.queue.pop() else {
                break None;
            };
            if self.evaluate(number) {
                note(list, rises, number);
                rises += 1;
                if let Some(bound) = self.first_broken() {
                    break Some(bound);
                }
            }
        };
        Explanation { bound, rises }
    }
}

impl Worklist {
    // Runs all flows, in number order from bottom, up to the first rise after which a bound is broken. Answers the lowest
    // such bound and the number of rises, and writes the flows that rose to the list as far as it has places; so with an
    // empty list a caller learns the length that is needed. The values are scratch.
    pub fn explain<K: Kind>(
        &mut self,
        network: &Network,
        values: &mut [K],
        list: &mut [FlowNumber],
    ) -> Explanation
        requires { (contents network.now).variables ≤ length values.old }
        ensures { Explained K.Kind (contents network.now).flows (contents network.now).bounds (length values.old) result.bound result.rises list.old list.new values.new }
    {
        reset(values);
        if let Some(bound) = network.first_broken(values) {
            return Explanation {
                bound: Some(bound),
                rises: 0,
            };
        }
        self.queue.fill(0, network.counts.flows);
        let mut run = Running {
            network,
            values,
            queue: &mut self.queue,
        };
        let explanation = run.trace(list);
        self.queue.clear();
        explanation
    }
}
