ghost use Rattle.std.specs.Prelude.{◌≡◌, if◌then◌else◌, Decides};
ghost use Rattle.flows.specs.Networks.{contents, Closed, Bounded, Earlier, cut};

use super::building::flow_inside;
use super::flow::{Bound, Flow, Variable};
use super::network::{Counts, Network};

// This and `bounds_inside` are alike but for the test: as one function they would be `all` itself.
fn flows_inside(flows: &[Flow], variables: Variable) -> bool
    ensures { Decides result (Closed variables flows.now) }
{
    flows.iter().all(|flow| flow_inside(*flow, variables))
}

fn bounds_inside(bounds: &[Bound], variables: Variable) -> bool
    ensures { Decides result (Bounded variables bounds.now) }
{
    bounds.iter().all(|bound| bound.variable < variables)
}

impl Network {
    // Whether these are earlier counts, and what would stay has only variables that would stay.
    fn can_cut(&self, to: Counts) -> bool
        ensures { Decides result (Earlier (contents self.now) to) }
    {
        let now = self.counts();
        if to.variables > now.variables || to.flows > now.flows || to.bounds > now.bounds {
            return false;
        }
        let kept_flows = &self.flows.as_slice()[0..to.flows as usize];
        let kept_bounds = &self.bounds.as_slice()[0..to.bounds as usize];
        flows_inside(kept_flows, to.variables) && bounds_inside(kept_bounds, to.variables)
    }

    // Takes back all that came after these counts. Where they are no earlier counts, or something that would stay has a
    // variable that would go, nothing changes and the answer is `false`.
    pub fn cut_back(&mut self, to: Counts) -> bool
        ensures earlier { Decides result (Earlier (contents self.old) to) }
        ensures after { contents self.new ≡ (if result then cut (contents self.old) to else contents self.old) }
    {
        if !self.can_cut(to) {
            return false;
        }
        self.readers.cut_to(to.flows);
        self.flows.truncate(to.flows as usize);
        self.bounds.truncate(to.bounds as usize);
        self.counts = to;
        true
    }
}
