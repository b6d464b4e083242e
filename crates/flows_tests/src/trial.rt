// A network with values for its variables and the memory to run it, and short ways to write flows.
use flows::explain::Explanation;
use flows::flow::{Bound, BoundNumber, Flow, FlowNumber, Rule, Variable};
use flows::network::{Counts, Network};
use flows::worklist::Worklist;
use kinds::kind::{Kind, NameNumber};
use kinds::operators::{MOVE, OperatorNumber};
use std::alloc::Global;
use std::process::Abort;
use std::test::*;

// The names of `Origin`.
pub const CHECKED: NameNumber = 0;

pub const ENTERED: NameNumber = 1;

// An operator with no source.
pub fn made(operator: OperatorNumber, target: Variable) -> Flow {
    Flow {
        rule: Rule::Operator(operator, None, None),
        target,
    }
}

pub fn from_one(operator: OperatorNumber, a: Variable, target: Variable) -> Flow {
    Flow {
        rule: Rule::Operator(operator, Some(a), None),
        target,
    }
}

pub fn from_two(operator: OperatorNumber, a: Variable, b: Variable, target: Variable) -> Flow {
    Flow {
        rule: Rule::Operator(operator, Some(a), Some(b)),
        target,
    }
}

pub fn moved(from: Variable, to: Variable) -> Flow {
    from_one(MOVE, from, to)
}

pub fn named(name: NameNumber, target: Variable) -> Flow {
    Flow {
        rule: Rule::Name(name),
        target,
    }
}

fn same<K: Kind>(a: K, b: K) -> bool {
    a.at_or_below(b) & b.at_or_below(a)
}

pub fn check_counts(
    rt: &impl Abort,
    counts: Counts,
    expected: (u16, u16, u16),
) -> Result<(), Fail> {
    let (variables, flows, bounds) = expected;
    assert_eq!(rt; counts.variables, variables, "variables");
    assert_eq!(rt; counts.flows, flows, "flows");
    assert_eq!(rt; counts.bounds, bounds, "bounds");
    Ok(())
}

#[derive(Drop)]
pub struct Trial<K: Kind> {
    pub network: Network,
    worklist: Worklist,
    values: Vec<K>,
}

impl<K: Kind> Trial<K> {
    // Some variables, each with bottom, and no flow.
    pub fn new(heap: Global, variables: Variable) -> Result<Trial<K>, Fail> {
        let mut trial = Trial {
            network: Network::new(heap)?,
            worklist: Worklist::new(heap)?,
            values: Vec::new(heap),
        };
        for _ in 0..variables {
            trial.add_variable()?;
        }
        Ok(trial)
    }

    // One variable more, with bottom.
    pub fn add_variable(&mut self) -> Result<(), Fail> {
        self.network.add_variable().ok_or("no room for a variable")?;
        self.values.push(K::bottom())?;
        Ok(())
    }

    pub fn add_flows(&mut self, flows: &[Flow]) -> Result<(), Fail> {
        for flow in flows {
            self.network.add_flow(*flow).ok_or("a flow does not fit")?;
        }
        Ok(())
    }

    pub fn add_bound(&mut self, name: NameNumber, variable: Variable) -> Result<(), Fail> {
        let bound = Bound { name, variable };
        self.network.add_bound(bound).ok_or("a bound does not fit")?;
        Ok(())
    }

    // Settles the flows from number `from` on. Answers the number of evaluations.
    pub fn settle(&mut self, from: FlowNumber) -> Result<usize, Fail> {
        if self.network.counts().variables as usize > self.values.len() {
            return Err(Fail::new("a variable has no value"));
        }
        Ok(
            self.worklist
                .settle(&self.network, self.values.as_mut_slice(), from),
        )
    }

    // Adds flows and settles them.
    pub fn step(&mut self, flows: &[Flow]) -> Result<usize, Fail> {
        let from = self.network.counts().flows;
        self.add_flows(flows)?;
        self.settle(from)
    }

    pub fn check_step(
        &mut self,
        rt: &impl Abort,
        flows: &[Flow],
        evaluations: usize,
    ) -> Result<(), Fail> {
        assert_eq!(rt; self.step(flows)?, evaluations, "evaluations");
        Ok(())
    }

    // Settles all flows from bottom.
    pub fn settle_anew(&mut self) -> Result<usize, Fail> {
        for value in self.values.iter_mut() {
            *value = K::bottom();
        }
        self.settle(0)
    }

    // Explains, with the values as scratch.
    fn explain(&mut self, list: &mut [FlowNumber]) -> Result<Explanation, Fail> {
        if self.network.counts().variables as usize > self.values.len() {
            return Err(Fail::new("a variable has no value"));
        }
        Ok(
            self.worklist
                .explain(&self.network, self.values.as_mut_slice(), list),
        )
    }

    pub fn check_explained(
        &mut self,
        rt: &impl Abort,
        list: &mut [FlowNumber],
        bound: Option<BoundNumber>,
        rises: usize,
    ) -> Result<(), Fail> {
        let explanation = self.explain(list)?;
        assert_eq!(rt; explanation.bound, bound, "the bound");
        assert_eq!(rt; explanation.rises, rises, "rises");
        Ok(())
    }

    pub fn first_broken(&self) -> Option<BoundNumber> {
        self.network.first_broken(self.values.as_slice())
    }

    pub fn check_value(&self, rt: &impl Abort, variable: usize, expected: K) -> Result<(), Fail> {
        let value = self.values.get(variable).ok_or("no such value")?;
        assert!(rt; same(*value, expected), "variable {variable}");
        Ok(())
    }

    // Checks the variables from number 0 on.
    pub fn check_values(&self, rt: &impl Abort, expected: &[K]) -> Result<(), Fail> {
        for (variable, value) in expected.iter().enumerate() {
            self.check_value(rt, variable, *value)?;
        }
        Ok(())
    }
}
