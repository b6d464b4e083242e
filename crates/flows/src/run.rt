ghost use Rattle.std.specs.Prelude.{◌≡◌, ℕ, ◌<◌, ◌≤◌, true, not, [], ◌++◌, length, if◌then◌else◌};
ghost use Rattle.flows.specs.Flows.{held, operand, result as outcome, met, flow};
ghost use Rattle.flows.specs.Limits.{most_flows};
ghost use Rattle.flows.specs.Networks.{contents};
ghost use Rattle.flows.specs.Pending.{pending};
ghost use Rattle.flows.specs.Queues.{waits};
ghost use Rattle.flows.specs.Running.{Continues};
ghost use Rattle.flows.specs.Runs.{applied, woken, Evaluates, Ends};

use super::flow::{Flow, FlowNumber, Rule, Variable};
use super::network::Network;
use super::queue::Queue;
use super::running::Running;
use kinds::kind::Kind;

// The value of a variable; one past the last has bottom.
pub(super) fn value_of<K: Kind>(values: &[K], variable: Variable) -> K
    ensures { result ≡ held K.Kind values.now variable }
{
    values
        .get(variable as usize)
        .copied()
        .unwrap_or(K::bottom())
}

// The value of a source; an absent one has bottom.
fn source<K: Kind>(values: &[K], variable: Option<Variable>) -> K
    ensures { result ≡ operand K.Kind (held K.Kind values.now) variable }
{
    variable.map_or(K::bottom(), |variable| value_of(values, variable))
}

// What a rule brings to its target.
fn brought<K: Kind>(values: &[K], rule: Rule) -> K
    ensures { result ≡ outcome K.Kind (held K.Kind values.now) rule }
{
    match rule {
        Rule::Operator(number, a, b) => K::operate(number, source(values, a), source(values, b)),
        Rule::Name(number) => K::value(number),
    }
}

// Applies a flow that is not met, and answers whether it did.
pub(super) fn raise<K: Kind>(values: &mut [K], flow: Flow) -> bool
    requires { flow.target < length values.old }
    ensures rose { met K.Kind (held K.Kind values.old) flow ≡ not result }
    ensures after { values.new ≡ (if result then applied K.Kind flow values.old else values.old) }
{
    let new = brought(values, flow.rule);
    let target = flow.target as usize;
    let old = values[target];
    if new.at_or_below(old) {
        return false;
    }
    values[target] = old.join(new);
    true
}

impl Network {
    // Appends every flow that reads a variable and does not wait, in ascending number.
    pub(super) fn wake(&self, queue: &mut Queue, variable: Variable)
        requires { variable < (contents self.now).variables }
        ensures { pending queue.new ≡ pending queue.old ++ woken (contents self.now).flows variable (pending queue.old) (length (contents self.now).flows) }
    {
        let mut next = self.readers.first(variable);
        while let Some(slot) = next {
            queue.push(slot / 2);
            next = self.readers.after(slot);
        }
    }
}

impl<K: Kind> Running<'_, '_, '_, K> {
    // One evaluation of a flow that has left the queue: if it is not met it is applied, a rise, and the flows that read its
    // target join the queue. Answers whether it rose.
    pub(super) fn evaluate(&mut self, number: FlowNumber) -> bool
        requires { number < length (contents self.old.network.now).flows }
        ensures continues { Continues K.Kind self.old self.new }
        ensures evaluates { Evaluates K.Kind (contents self.old.network.now).flows number self.old.values.now (pending self.old.queue.now) result self.new.values.now (pending self.new.queue.now) }
    {
        let flow = self.network.flow(number);
        let rose = raise(self.values, flow);
        if rose {
            self.network.wake(self.queue, flow.target);
        }
        rose
    }

    // Evaluates the flows that wait, oldest first, until none does. Answers the number of evaluations.
    pub(super) fn finish(&mut self) -> usize
        ensures continues { Continues K.Kind self.old self.new }
        ensures ends { Ends K.Kind (contents self.old.network.now).flows self.old.values.now (pending self.old.queue.now) result self.new.values.now }
        ensures idle { pending self.new.queue.now ≡ [] }
    {
        let mut evaluations = 0;
        while let Some(number) = self.queue.pop() {
            self.evaluate(number);
            evaluations += 1;
        }
        evaluations
    }
}
