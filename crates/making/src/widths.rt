ghost use Rattle.std.specs.Prelude.{◌≡◌, ℕ, ◌<◌, true, if◌then◌else◌, Some, None, Option, nat_lt};
ghost use Rattle.flows.specs.Flows.{known, inside};
ghost use Rattle.flows.specs.Limits.{most_variables};
ghost use Rattle.flows.specs.declared.flow.Rule.TheVariants.{Operator, Name};
ghost use Rattle.making.specs.Holding.{clip, clip_source};
ghost use Rattle.rules.specs.Making.{flow};

use flows::flow::{Bound, Flow, Rule, Variable};
use kinds::kind::NameNumber;
use kinds::operators::OperatorNumber;

// A variable as the network numbers it, where its number is not too great.
fn narrow(v: usize) -> Option<Variable>
    ensures { result ≡ (if nat_lt v 65536 then Some v else None) }
{
    Variable::try_from(v).ok()
}

fn narrow_source(source: Option<usize>) -> Option<Option<Variable>>
    ensures { (x : Option ℕ) → source ≡ clip_source x → known most_variables x ≡ true → result ≡ Some x }
{
    match source {
        Some(v) => Some(Some(narrow(v)?)),
        None => Some(None),
    }
}

// A flow as the network has it, where its numbers are not too great. The parameters are a flow's, not yet narrow.
pub(super) fn operator_flow(
    operator: OperatorNumber,
    a: Option<usize>,
    b: Option<usize>,
    target: usize,
) -> Option<Flow>
    ensures { (x y : Option ℕ) (t : ℕ) → a ≡ clip_source x → b ≡ clip_source y → target ≡ clip t → inside most_variables (flow (Operator operator x y) t) ≡ true → result ≡ Some (flow (Operator operator x y) t) }
{
    Some(Flow {
        rule: Rule::Operator(operator, narrow_source(a)?, narrow_source(b)?),
        target: narrow(target)?,
    })
}

pub(super) fn name_flow(name: NameNumber, target: usize) -> Option<Flow>
    ensures { (t : ℕ) → target ≡ clip t → inside most_variables (flow (Name name) t) ≡ true → result ≡ Some (flow (Name name) t) }
{
    Some(Flow {
        rule: Rule::Name(name),
        target: narrow(target)?,
    })
}

pub(super) fn narrow_bound(name: NameNumber, variable: usize) -> Option<Bound>
    ensures { (v : ℕ) → variable ≡ clip v → v < most_variables → result ≡ Some (record { name = name; variable = v }) }
{
    Some(Bound {
        name,
        variable: narrow(variable)?,
    })
}
