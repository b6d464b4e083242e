ghost use Rattle.std.specs.Prelude.{◌≡◌};
ghost use Rattle.syntax.specs.Meanings.{tree_of};
ghost use Rattle.syntax.specs.Starts.{start, Begins};

use super::tree::Exp;

impl Exp<'_> {
    // The place of its first token. It calls itself, case by case as its definition does; a loop would be no plainer.
    pub fn start(&self) -> usize
        ensures { result ≡ start (tree_of self.now) }
    {
        match self {
            Exp::Literal(x) => x.place,
            Exp::Variable(x) => x.place,
            Exp::Group(place, _) => *place,
            Exp::Assign(place, _, _, _) => *place,
            Exp::Let(place, _, _) => *place,
            Exp::Bounded(e, _) => e.start(),
            Exp::Ref(place, _) => *place,
            Exp::Read(place, _) => *place,
            Exp::Call(f, _) => f.place,
            Exp::Arith(a, _, _, _) => a.start(),
            Exp::If(place, _, _, _, _) => *place,
        }
    }
}

// A theorem about `start`: it is the place of the first token of an expression.
pub fn begins()
    ensures { Begins }
{}
