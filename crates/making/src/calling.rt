ghost use Rattle.std.specs.Prelude.{◌≡◌, List, Some, Ok};
ghost use Rattle.making.specs.Holding.{clip_source, SameLevels, SameTypes, SameOperands, Itself, Grown, Holds, Follows};
ghost use Rattle.rules.specs.Calls.{Operand as Argument, ints, fit, passes, value_of, called};
ghost use Rattle.rules.specs.Making.{Levels as TypeLevels};
ghost use Rattle.rules.specs.Scopes.{predeclared, function};
ghost use Rattle.syntax.specs.Trees.{Text};

use super::output::{Levels, Operand, Output};
use kinds::operators::OperatorNumber;
use refusals::refusal::Refusal;

// Refuses the first argument that is no int.
fn all_ints(operands: &[Operand]) -> Result<(), Refusal>
    ensures { (base o : Output) (args : List Argument) → SameOperands operands.now args → Follows (Holds base) (Grown base) Itself o o result (ints args) }
{
    for operand in operands {
        operand.demand_int()?;
    }
    Ok(())
}

// Refuses the first argument that has not the depth of its parameter.
fn all_fit(operands: &[Operand], parameters: &[Levels]) -> Result<(), Refusal>
    ensures { (base o : Output) (args : List Argument) (ps : List TypeLevels) → SameOperands operands.now args → SameTypes parameters.now ps → Follows (Holds base) (Grown base) Itself o o result (fit args ps) }
{
    for (operand, parameter) in operands.iter().zip(parameters) {
        if operand.levels.depth != parameter.depth {
            return Err(Refusal::Unfit(operand.place));
        }
    }
    Ok(())
}

// The variable of the value of argument i.
fn value_at(operands: &[Operand], i: usize) -> Option<usize>
    ensures { (args : List Argument) → SameOperands operands.now args → result ≡ clip_source (value_of args i) }
{
    Some(operands.get(i)?.levels.first)
}

impl Output {
    // Each argument flows into its parameter.
    fn pass(&mut self, operands: &[Operand], parameters: &[Levels])
        ensures { (base : Output) (args : List Argument) (ps : List TypeLevels) → SameOperands operands.now args → SameTypes parameters.now ps → Follows (Holds base) (Grown base) Itself self.old self.new (Ok tt) (passes args ps) }
    {
        for (operand, parameter) in operands.iter().zip(parameters) {
            self.flow_into(operand.levels, *parameter);
        }
    }

    // A call, whose name stands at a place, of a function with these parameters and this result.
    pub fn add_call(
        &mut self,
        at: usize,
        operands: &[Operand],
        parameters: &[Levels],
        outcome: Levels,
    ) -> Result<Levels, Refusal>
        ensures { (base : Output) (f : Text) (args : List Argument) (ps : List TypeLevels) (t : TypeLevels) → at ≡ f.place → SameOperands operands.now args → SameTypes parameters.now ps → SameLevels outcome t → Follows (Holds base) (Grown base) SameLevels self.old self.new result (called f args (Some (function ps t))) }
    {
        if operands.len() != parameters.len() {
            return Err(Refusal::Unfit(at));
        }
        all_fit(operands, parameters)?;
        self.pass(operands, parameters);
        Ok(outcome)
    }

    // A call of an operator that takes so many ints.
    pub fn add_predeclared(
        &mut self,
        at: usize,
        operands: &[Operand],
        operator: OperatorNumber,
        count: usize,
    ) -> Result<Levels, Refusal>
        ensures { (base : Output) (f : Text) (args : List Argument) → at ≡ f.place → SameOperands operands.now args → Follows (Holds base) (Grown base) SameLevels self.old self.new result (called f args (Some (predeclared operator count))) }
    {
        if operands.len() != count {
            return Err(Refusal::Unfit(at));
        }
        all_ints(operands)?;
        let t = self.new_type(0);
        self.add_operator(
            operator,
            value_at(operands, 0),
            value_at(operands, 1),
            t.first,
        );
        Ok(t)
    }
}
