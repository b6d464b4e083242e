ghost use Rattle.std.specs.Prelude.{◌≡◌, ℕ, true, [], ◌∷◌, Some, Ok, Option};
ghost use Rattle.flows.specs.Flows.{inside};
ghost use Rattle.flows.specs.Limits.{most_variables};
ghost use Rattle.flows.specs.Networks.{contents};
ghost use Rattle.flows.specs.declared.flow.Rule.TheVariants.{Operator, Name};
ghost use Rattle.making.specs.Handing.{handed, handed_bound};
ghost use Rattle.making.specs.Holding.{clip, clip_source, Itself, SameBinder, Grown, Holds, Follows};
ghost use Rattle.rules.specs.Making.{makes, limits, notes, flow, Binder as Noted};

use super::output::{Binder, MOST_BINDERS, Output};
use super::widths::{name_flow, narrow_bound, operator_flow};
use flows::flow::{Bound, Flow};
use flows::network::Network;
use kinds::kind::NameNumber;
use kinds::operators::OperatorNumber;

// This and `hand_bound` are alike but for the method and its definition; one function that takes both from its caller is no plainer.
fn hand_flow(network: &mut Network, flow: Option<Flow>)
    ensures { contents network.new ≡ handed (contents network.old) flow }
{
    if let Some(flow) = flow {
        let _ = network.add_flow(flow);
    }
}

fn hand_bound(network: &mut Network, bound: Option<Bound>)
    ensures { contents network.new ≡ handed_bound (contents network.old) bound }
{
    if let Some(bound) = bound {
        let _ = network.add_bound(bound);
    }
}

impl Output {
    // A flow, where it has a form that the network takes.
    fn add_flow(&mut self, narrowed: Option<Flow>)
        ensures { (base : Output) (f : Flow) → (inside most_variables f ≡ true → narrowed ≡ Some f) → Follows (Holds base) (Grown base) Itself self.old self.new (Ok tt) (makes (f ∷ [])) }
    {
        self.made.flows = self.made.flows.saturating_add(1);
        hand_flow(&mut self.network, narrowed);
    }

    // Operator, operands and target are handed on once, to `operator_flow`: a struct for them would be a second `Flow`.
    pub fn add_operator(
        &mut self,
        operator: OperatorNumber,
        a: Option<usize>,
        b: Option<usize>,
        target: usize,
    )
        ensures { (base : Output) (x y : Option ℕ) (t : ℕ) → a ≡ clip_source x → b ≡ clip_source y → target ≡ clip t → Follows (Holds base) (Grown base) Itself self.old self.new (Ok tt) (makes (flow (Operator operator x y) t ∷ [])) }
    {
        self.add_flow(operator_flow(operator, a, b, target));
    }

    pub fn add_name(&mut self, name: NameNumber, target: usize)
        ensures { (base : Output) (t : ℕ) → target ≡ clip t → Follows (Holds base) (Grown base) Itself self.old self.new (Ok tt) (makes (flow (Name name) t ∷ [])) }
    {
        self.add_flow(name_flow(name, target));
    }

    pub fn add_bound(&mut self, name: NameNumber, variable: usize)
        ensures { (base : Output) (v : ℕ) → variable ≡ clip v → Follows (Holds base) (Grown base) Itself self.old self.new (Ok tt) (limits (record { name = name; variable = v })) }
    {
        self.made.bounds = self.made.bounds.saturating_add(1);
        hand_bound(&mut self.network, narrow_bound(name, variable));
    }

    pub fn add_binder(&mut self, binder: Binder)
        ensures { (base : Output) (b : Noted) → SameBinder binder b → Follows (Holds base) (Grown base) Itself self.old self.new (Ok tt) (notes b) }
    {
        self.made.binders = self.made.binders.saturating_add(1);
        if self.binders.len() < MOST_BINDERS {
            self.binders.push_reserved(binder);
        }
    }
}
