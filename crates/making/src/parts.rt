ghost use Rattle.std.specs.Prelude.{◌≡◌, ℕ, Some, Ok};
ghost use Rattle.making.specs.Holding.{SameLevels, Itself, Grown, Holds, Follows};
ghost use Rattle.rules.specs.Making.{Levels as TypeLevels};
ghost use Rattle.rules.specs.Parts.{int, literal, cell, reached, arithmetic, branches, assigned, limited, returned};
ghost use Rattle.syntax.specs.Trees.{Text};

use super::making::below;
use super::output::{Levels, Operand, Output};
use kinds::kind::NameNumber;
use kinds::operators::{ARITH, LITERAL};
use refusals::refusal::Refusal;

const DEEPEST: u8 = 3;

impl Operand {
    // Refuses what is no int.
    pub(super) fn demand_int(self) -> Result<(), Refusal>
        ensures { (base o : Output) (p : ℕ) (x : TypeLevels) → self.place ≡ p → SameLevels self.levels x → Follows (Holds base) (Grown base) Itself o o result (int p x) }
    {
        if self.levels.depth != 0 {
            return Err(Refusal::Unfit(self.place));
        }
        Ok(())
    }
}

// What `!` reaches.
pub fn reach(a: Operand) -> Result<Levels, Refusal>
    ensures { (base o : Output) (x : TypeLevels) → SameLevels a.levels x → Follows (Holds base) (Grown base) SameLevels o o result (reached a.place x) }
{
    if a.levels.depth == 0 {
        return Err(Refusal::Unfit(a.place));
    }
    Ok(below(a.levels))
}

impl Output {
    pub fn add_literal(&mut self) -> Levels
        ensures { (base : Output) → Follows (Holds base) (Grown base) SameLevels self.old self.new (Ok result) literal }
    {
        let t = self.new_type(0);
        self.add_operator(LITERAL, None, None, t.first);
        t
    }

    // `ref` at a place, of what has the type a.
    pub fn add_cell(&mut self, at: usize, a: Levels) -> Result<Levels, Refusal>
        ensures { (base : Output) (x : TypeLevels) → SameLevels a x → Follows (Holds base) (Grown base) SameLevels self.old self.new result (cell at x) }
    {
        if a.depth >= DEEPEST {
            return Err(Refusal::Unfit(at));
        }
        let t = self.new_type(a.depth + 1);
        self.add_operator(LITERAL, None, None, t.first);
        self.flow_into(a, below(t));
        Ok(t)
    }

    pub fn add_arithmetic(&mut self, a: Operand, b: Operand) -> Result<Levels, Refusal>
        ensures { (base : Output) (x y : TypeLevels) → SameLevels a.levels x → SameLevels b.levels y → Follows (Holds base) (Grown base) SameLevels self.old self.new result (arithmetic a.place x b.place y) }
    {
        a.demand_int()?;
        b.demand_int()?;
        let t = self.new_type(0);
        self.add_operator(ARITH, Some(a.levels.first), Some(b.levels.first), t.first);
        Ok(t)
    }

    // `if a < b then c else d`
    pub fn add_branches(
        &mut self,
        a: Operand,
        b: Operand,
        c: Levels,
        d: Operand,
    ) -> Result<Levels, Refusal>
        ensures { (base : Output) (x y z w : TypeLevels) → SameLevels a.levels x → SameLevels b.levels y → SameLevels c z → SameLevels d.levels w → Follows (Holds base) (Grown base) SameLevels self.old self.new result (branches a.place x b.place y z d.place w) }
    {
        a.demand_int()?;
        b.demand_int()?;
        if d.levels.depth != c.depth {
            return Err(Refusal::Unfit(d.place));
        }
        let t = self.new_type(c.depth);
        self.flow_into(c, t);
        self.flow_into(d.levels, t);
        Ok(t)
    }

    // `(p := e; f)`
    pub fn add_assignment(&mut self, p: Operand, e: Operand, f: Levels) -> Result<Levels, Refusal>
        ensures { (base : Output) (x y z : TypeLevels) → SameLevels p.levels x → SameLevels e.levels y → SameLevels f z → Follows (Holds base) (Grown base) SameLevels self.old self.new result (assigned p.place x e.place y z) }
    {
        if p.levels.depth == 0 {
            return Err(Refusal::Unfit(p.place));
        }
        if e.levels.depth != p.levels.depth - 1 {
            return Err(Refusal::Unfit(e.place));
        }
        self.flow_into(e.levels, below(p.levels));
        Ok(f)
    }

    // A bound mark whose name has this number, behind an atom with the type a.
    pub fn add_limit(&mut self, name: NameNumber, a: Levels) -> Levels
        ensures { (base : Output) (k : Text) (x : TypeLevels) → SameLevels a x → Follows (Holds base) (Grown base) SameLevels self.old self.new (Ok result) (limited k x (Some name)) }
    {
        self.add_bound(name, a.first);
        a
    }

    // The body u of a function whose result has the type t.
    pub fn add_result(&mut self, u: Operand, t: Levels) -> Result<(), Refusal>
        ensures { (base : Output) (x y : TypeLevels) → SameLevels u.levels x → SameLevels t y → Follows (Holds base) (Grown base) Itself self.old self.new result (returned u.place x y) }
    {
        if u.levels.depth != t.depth {
            return Err(Refusal::Unfit(u.place));
        }
        self.flow_into(u.levels, t);
        Ok(())
    }
}
