ghost use Rattle.std.specs.Prelude.{◌≡◌, true, false};
ghost use Rattle.flows.specs.Limits.{most_variables};
ghost use Rattle.flows.specs.Networks.{contents};
ghost use Rattle.making.specs.Holding.{Grown, Holds};
ghost use Rattle.making.specs.Settled.{Within, Settled, CountsOf};
ghost use Rattle.rules.specs.Making.{Made};

use super::output::{Output, Tally};
use flows::network::{Counts, MOST_BOUNDS, MOST_FLOWS, MOST_VARIABLES, Network};

// Gives the network all the variables that it can hold.
fn fill(network: &mut Network)
    ensures variables { (contents network.new).variables ≡ most_variables }
    ensures flows { (contents network.new).flows ≡ (contents network.old).flows }
    ensures bounds { (contents network.new).bounds ≡ (contents network.old).bounds }
{
    for _ in 0..MOST_VARIABLES {
        let _ = network.add_variable();
    }
}

// The counts of a network that holds so much, where one can.
fn counts_of(made: Tally) -> Option<Counts>
    ensures { CountsOf made result }
{
    if made.variables > MOST_VARIABLES as usize
        || made.flows > MOST_FLOWS as usize
        || made.bounds > MOST_BOUNDS as usize
    {
        return None;
    }
    Some(Counts {
        variables: made.variables as u16,
        flows: made.flows as u16,
        bounds: made.bounds as u16,
    })
}

impl Output {
    // Before a declaration: the network gets all the variables that it can hold.
    pub fn widen(&mut self)
        ensures { (m : Made) → Settled self.old m → Holds self.old self.new m }
    {
        fill(&mut self.network);
    }

    // After a declaration: only the variables that are made stay. `false`, and nothing is lost, where a limit is passed.
    pub fn settle(&mut self) -> bool
        ensures within { (base : Output) (m : Made) → Holds base self.old m → Within m → (result ≡ true) × Settled self.new m }
        ensures passed { (base : Output) → Grown base self.old → result ≡ false → Grown base self.new }
    {
        let Some(to) = counts_of(self.made) else {
            return false;
        };
        self.network.cut_back(to)
    }
}
