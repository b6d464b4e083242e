ghost use Rattle.std.specs.Prelude.{◌≡◌, length, IfOk, if◌then◌else◌};
ghost use Rattle.flows.specs.Flows.{known, knows, inside};
ghost use Rattle.flows.specs.Networks.{contents, nothing, number_if, room_for_variable, with_variable, room_for_flow, with_flow, room_for_bound, with_bound};

use super::flow::{Bound, BoundNumber, Flow, FlowNumber, Rule, Variable};
use super::network::{Counts, MOST_BOUNDS, MOST_FLOWS, MOST_VARIABLES, Network};
use super::readers::Readers;
use std::alloc::{AllocError, Global};

fn source_known(source: Option<Variable>, variables: Variable) -> bool
    ensures { result ≡ known variables source }
{
    source.is_none_or(|variable| variable < variables)
}

fn sources_known(rule: Rule, variables: Variable) -> bool
    ensures { result ≡ knows variables rule }
{
    match rule {
        Rule::Operator(_, a, b) => source_known(a, variables) && source_known(b, variables),
        Rule::Name(_) => true,
    }
}

// Whether all variables of a flow are below the count.
pub(super) fn flow_inside(flow: Flow, variables: Variable) -> bool
    ensures { result ≡ inside variables flow }
{
    flow.target < variables && sources_known(flow.rule, variables)
}

impl Network {
    // An empty network.
    pub fn new(heap: Global) -> Result<Network, AllocError>
        ensures { IfOk result (λ n. contents n ≡ nothing) }
    {
        Ok(Network {
            counts: Counts {
                variables: 0,
                flows: 0,
                bounds: 0,
            },
            flows: Vec::with_capacity(heap, MOST_FLOWS as usize)?,
            bounds: Vec::with_capacity(heap, MOST_BOUNDS as usize)?,
            readers: Readers::new(heap)?,
        })
    }

    // One variable more, or `None` where there is no room.
    pub fn add_variable(&mut self) -> Option<Variable>
        ensures number { result ≡ number_if (room_for_variable (contents self.old)) (contents self.old).variables }
        ensures after { contents self.new ≡ (if room_for_variable (contents self.old) then with_variable (contents self.old) else contents self.old) }
    {
        let Counts {
            variables,
            flows,
            bounds,
        } = self.counts;
        if variables >= MOST_VARIABLES {
            return None;
        }
        self.counts = Counts {
            variables: variables + 1,
            flows,
            bounds,
        };
        Some(variables)
    }

    // One flow more, or `None` where there is no room or one of its variables is not there.
    pub fn add_flow(&mut self, flow: Flow) -> Option<FlowNumber>
        ensures number { result ≡ number_if (room_for_flow (contents self.old) flow) (length (contents self.old).flows) }
        ensures after { contents self.new ≡ (if room_for_flow (contents self.old) flow then with_flow (contents self.old) flow else contents self.old) }
    {
        let Counts {
            variables,
            flows,
            bounds,
        } = self.counts;
        if flows >= MOST_FLOWS || !flow_inside(flow, variables) {
            return None;
        }
        self.readers.add(flow);
        self.flows.push_reserved(flow);
        self.counts = Counts {
            variables,
            flows: flows + 1,
            bounds,
        };
        Some(flows)
    }

    // One bound more, or `None` where there is no room or its variable is not there.
    pub fn add_bound(&mut self, bound: Bound) -> Option<BoundNumber>
        ensures number { result ≡ number_if (room_for_bound (contents self.old) bound) (length (contents self.old).bounds) }
        ensures after { contents self.new ≡ (if room_for_bound (contents self.old) bound then with_bound (contents self.old) bound else contents self.old) }
    {
        let Counts {
            variables,
            flows,
            bounds,
        } = self.counts;
        if bounds >= MOST_BOUNDS || bound.variable >= variables {
            return None;
        }
        self.bounds.push_reserved(bound);
        self.counts = Counts {
            variables,
            flows,
            bounds: bounds + 1,
        };
        Some(bounds)
    }
}
