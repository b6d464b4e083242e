// The front of the tokens.
ghost use Rattle.std.specs.Prelude.{◌≡◌, MatchOption, OnErr};
ghost use Rattle.tokens.specs.Meanings.{meaning};
ghost use Rattle.syntax.specs.Sorts.{same_sort};
ghost use Rattle.goals.specs.Outcomes.{place_at};
ghost use Rattle.pieces.specs.Seen.{seen, left, left_if};
ghost use Rattle.pieces.specs.Looking.{Went, Identified};
ghost use Rattle.pieces.specs.Reading.{Deeper};
ghost use Rattle.pieces.specs.Taking.{token_of, Found, Says, TextFound, Next, Tells};

use super::fault::Fault;
use std::alloc::Global;
use syntax::tree::Lexeme;
use tokens::token::{Mark, Symbol, Token, TokenKind, Word};

// So many levels may be open.
const MOST_LEVELS: u8 = 32;

// A token that is spelled in one way only.
#[derive(Clone, Copy, Debug, PartialEq)]
pub enum Sign {
    Word(Word),
    Symbol(Symbol),
}

impl Sign {
    fn is(self, kind: TokenKind<'_>) -> bool
        ensures { result ≡ same_sort (meaning kind.entry) (token_of self) }
    {
        match (self, kind) {
            (Sign::Word(want), TokenKind::Word(word)) => word == want,
            (Sign::Symbol(want), TokenKind::Symbol(symbol)) => symbol == want,
            _ => false,
        }
    }
}

// A token with a text of its own, but for literals.
#[derive(Clone, Copy, Debug, PartialEq)]
pub enum Text {
    Name,
    Binder,
    Bound,
}

impl Text {
    // The text of a token of this kind.
    fn of<'a>(self, kind: TokenKind<'a>) -> Option<&'a [u8]>
        ensures { Says self (meaning kind.entry) result }
    {
        match (self, kind) {
            (Text::Name, TokenKind::Identifier(bytes)) => Some(bytes),
            (Text::Binder, TokenKind::Mark(Mark::Binder(bytes))) => Some(bytes),
            (Text::Bound, TokenKind::Mark(Mark::Bound(bytes))) => Some(bytes),
            _ => None,
        }
    }
}

// How many levels are open in one more, if it may be opened.
pub fn deeper(depth: u8) -> Option<u8>
    ensures { Deeper depth result }
{
    if depth < MOST_LEVELS {
        Some(depth + 1)
    } else {
        None
    }
}

// The tokens that are left, where the text ends, and where trees lie. That a part of the parser leaves the end as it is, each
// contract says by `same`: it relates two states, and an invariant of the type speaks of one. After a fault a public method
// leaves the reader where it stood (`stays`): what takes more than one token goes ahead on a copy.
#[derive(Clone, Copy)]
pub struct Reader<'t, 'a> {
    pub rest: &'t [Token<'a>],
    pub end: usize,
    pub heap: Global,
}

impl<'t, 'a> Reader<'t, 'a> {
    // The next token, or the end, does not go on.
    pub fn misplaced(&self) -> Fault
        ensures { result ≡ Fault.Misplaced (place_at self.now.end (seen self.now.rest)) }
    {
        match self.rest {
            [Token { place, .. }, ..] => Fault::Misplaced(*place),
            [] => Fault::Misplaced(self.end),
        }
    }

    // The place of the next token, which is taken if it is this one.
    pub fn take(&mut self, want: Sign) -> Option<usize>
        ensures found { Found (token_of want) (seen self.old.rest) (left_if result self.new.rest) }
        ensures tells { Tells self.old.end want (seen self.old.rest) (left_if result self.new.rest) }
        ensures same { MatchOption result (self.new ≡ self.old) (λ _. self.new.end ≡ self.old.end) }
    {
        match self.rest {
            [Token { place, kind }, rest @ ..] if want.is(*kind) => {
                self.rest = rest;
                Some(*place)
            }
            _ => None,
        }
    }

    // The same where nothing else can stand.
    pub fn expect(&mut self, want: Sign) -> Result<usize, Fault>
        ensures went { Went self.old.end (token_of want) (seen self.old.rest) (left result self.new.rest) }
        ensures same { self.new.end ≡ self.old.end }
        ensures stays { OnErr result (self.new ≡ self.old) }
    {
        self.take(want).ok_or(self.misplaced())
    }

    // The next token.
    pub fn next(&mut self) -> Result<Token<'a>, Fault>
        ensures read { Next self.old.end (seen self.old.rest) (left result self.new.rest) }
        ensures same { self.new.end ≡ self.old.end }
        ensures stays { OnErr result (self.new ≡ self.old) }
    {
        match self.rest {
            [token, rest @ ..] => {
                self.rest = rest;
                Ok(*token)
            }
            [] => Err(Fault::Misplaced(self.end)),
        }
    }

    // The text of this kind with its place, which is taken, if one stands there.
    pub fn text(&mut self, kind: Text) -> Option<Lexeme<'a>>
        ensures found { TextFound self.old.end kind (seen self.old.rest) result self.new.rest }
        ensures same { MatchOption result (self.new ≡ self.old) (λ _. self.new.end ≡ self.old.end) }
    {
        let [token, rest @ ..] = self.rest else {
            return None;
        };
        let bytes = kind.of(token.kind)?;
        self.rest = rest;
        Some(Lexeme {
            place: token.place,
            bytes,
        })
    }

    pub fn identifier(&mut self) -> Result<Lexeme<'a>, Fault>
        ensures read { Identified self.old.end (seen self.old.rest) (left result self.new.rest) }
        ensures same { self.new.end ≡ self.old.end }
        ensures stays { OnErr result (self.new ≡ self.old) }
    {
        self.text(Text::Name).ok_or(self.misplaced())
    }
}
