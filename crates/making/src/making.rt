ghost use Rattle.std.specs.Prelude.{◌≡◌, ℕ, ◌+◌, [], ◌∷◌, Ok};
ghost use Rattle.making.specs.Holding.{clip, SameLevels, Itself, Grown, Holds, Follows};
ghost use Rattle.rules.specs.Making.{Levels as TypeLevels, from_1, fresh, makes, move, into};

use super::output::{Levels, Output};
use kinds::operators::MOVE;

// The variable of a type at a level.
pub fn level(first: usize, i: usize) -> usize
    ensures { (n : ℕ) → first ≡ clip n → result ≡ clip (n + i) }
{
    first.saturating_add(i)
}

// A type's levels from 1 on.
pub fn below(t: Levels) -> Levels
    ensures { (x : TypeLevels) → SameLevels t x → SameLevels result (from_1 x) }
{
    Levels {
        first: level(t.first, 1),
        depth: t.depth.saturating_sub(1),
    }
}

impl Output {
    pub fn new_type(&mut self, depth: u8) -> Levels
        ensures { (base : Output) → Follows (Holds base) (Grown base) SameLevels self.old self.new (Ok result) (fresh depth) }
    {
        let first = self.made.variables;
        self.made.variables = level(first, depth as usize + 1);
        Levels { first, depth }
    }

    fn add_move(&mut self, s: usize, t: usize)
        ensures { (base : Output) (x y : ℕ) → s ≡ clip x → t ≡ clip y → Follows (Holds base) (Grown base) Itself self.old self.new (Ok tt) (makes (move x y ∷ [])) }
    {
        self.add_operator(MOVE, Some(s), None, t);
    }

    // The moves of "s flows into t".
    pub fn flow_into(&mut self, s: Levels, t: Levels)
        ensures { (base : Output) (x y : TypeLevels) → SameLevels s x → SameLevels t y → Follows (Holds base) (Grown base) Itself self.old self.new (Ok tt) (makes (into x y)) }
    {
        self.add_move(s.first, t.first);
        for i in 0..s.depth {
            let a = level(s.first, i as usize + 1);
            let b = level(t.first, i as usize + 1);
            self.add_move(a, b);
            self.add_move(b, a);
        }
    }
}
