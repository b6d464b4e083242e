// What stands at the front, where more than one thing may.
ghost use Rattle.std.specs.Prelude.{◌≡◌, MatchOption};
ghost use Rattle.tokens.specs.Meanings.{meaning};
ghost use Rattle.pieces.specs.Seen.{seen, left_if};
ghost use Rattle.pieces.specs.Looking.{Operates};
ghost use Rattle.pieces.specs.Taking.{strength_of, more_of, part_of, Signs};

use super::front::Reader;
use syntax::tree::Operator;
use tokens::token::{Symbol, Token, TokenKind, Word};

// What operators join: `+` and `-` terms to a sum, `*`, `div` and `mod` apps to a term.
#[derive(Clone, Copy, Debug, PartialEq)]
pub enum Tier {
    Sum,
    Term,
}

impl Tier {
    // The operator that a token is, if it is one of these.
    fn operator(self, kind: TokenKind<'_>) -> Option<Operator>
        ensures { Signs self (meaning kind.entry) result }
    {
        match (self, kind) {
            (Tier::Sum, TokenKind::Symbol(Symbol::Plus)) => Some(Operator::Plus),
            (Tier::Sum, TokenKind::Symbol(Symbol::Minus)) => Some(Operator::Minus),
            (Tier::Term, TokenKind::Symbol(Symbol::Star)) => Some(Operator::Times),
            (Tier::Term, TokenKind::Word(Word::Div)) => Some(Operator::Div),
            (Tier::Term, TokenKind::Word(Word::Mod)) => Some(Operator::Mod),
            _ => None,
        }
    }
}

impl<'t, 'a> Reader<'t, 'a> {
    // The place of an operator and that operator, which is taken.
    pub fn operator(&mut self, tier: Tier) -> Option<(usize, Operator)>
        ensures found { Operates (strength_of tier) self.old.end (more_of tier) (part_of tier) (seen self.old.rest) (left_if result self.new.rest) }
        ensures same { MatchOption result (self.new ≡ self.old) (λ _. self.new.end ≡ self.old.end) }
    {
        let [Token { place, kind }, rest @ ..] = self.rest else {
            return None;
        };
        let op = tier.operator(*kind)?;
        self.rest = rest;
        Some((*place, op))
    }
}
