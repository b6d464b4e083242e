use kinds::kind::NameNumber;
use kinds::operators::OperatorNumber;

// The number of a variable, a flow or a bound, each counted from 0.
pub type Variable = u16;

pub type FlowNumber = u16;

pub type BoundNumber = u16;

// Where a flow's value comes from: an operator on up to two source variables, or a name.
#[derive(Clone, Copy)]
pub enum Rule {
    Operator(OperatorNumber, Option<Variable>, Option<Variable>),
    Name(NameNumber),
}

// What its rule gives flows into the target.
#[derive(Clone, Copy)]
pub struct Flow {
    pub rule: Rule,
    pub target: Variable,
}

// The name's value must not be at or below the variable's.
#[derive(Clone, Copy)]
pub struct Bound {
    pub name: NameNumber,
    pub variable: Variable,
}
