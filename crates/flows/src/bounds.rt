ghost use Rattle.std.specs.Prelude.{◌≡◌};
ghost use Rattle.flows.specs.Bounds.{broken, Tested, Judged};
ghost use Rattle.flows.specs.Flows.{held, Least};
ghost use Rattle.flows.specs.Networks.{contents};

use super::flow::{Bound, BoundNumber};
use super::network::Network;
use super::run::value_of;
use kinds::kind::Kind;

// Whether the name's value is at or below the variable's.
fn breaks<K: Kind>(values: &[K], bound: Bound) -> bool
    ensures { result ≡ broken K.Kind (held K.Kind values.now) bound }
{
    K::value(bound.name).at_or_below(value_of(values, bound.variable))
}

impl Network {
    fn lowest_broken<K: Kind>(&self, values: &[K]) -> Option<BoundNumber>
        ensures { Tested K.Kind (contents self.now).bounds (held K.Kind values.now) result }
    {
        // It stays a `for` over the numbers that leaves at the first broken bound, a rule of the project.
        for number in 0..self.counts.bounds {
            if breaks(values, self.bound(number)) {
                return Some(number);
            }
        }
        None
    }

    // The lowest bound that values break. Where the values are the least that meet the flows, there is one just where no
    // assignment meets flows and bounds.
    pub fn first_broken<K: Kind>(&self, values: &[K]) -> Option<BoundNumber>
        ensures lowest { Tested K.Kind (contents self.now).bounds (held K.Kind values.now) result }
        ensures exact { Least K.Kind (contents self.now).flows (held K.Kind values.now) → Judged K.Kind (contents self.now).flows (contents self.now).bounds result }
    {
        self.lowest_broken(values)
    }
}
