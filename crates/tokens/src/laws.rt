// Theorems about the definitions that the contract of `lex` cites. The functions do nothing.
ghost use Rattle.tokens.specs.Local.{Stays, Joins, Splits, Moves, MovesBack, Marks, Inserts, Replaces};
ghost use Rattle.tokens.specs.Refusing.{RunRefused};
ghost use Rattle.tokens.specs.Examples.{Examples};

// How a part of a text reads does not depend on the rest.
pub fn lexer_local()
    ensures stays { Stays }
    ensures joins { Joins }
    ensures splits { Splits }
    ensures moves { Moves }
    ensures moves_back { MovesBack }
    ensures marks { Marks }
    ensures inserts { Inserts }
    ensures replaces { Replaces }
{}

// Where a text is refused the longest run of bytes of a class is as a whole no token.
pub fn lexer_refuses()
    ensures { RunRefused }
{}

pub fn lexer_examples()
    ensures { Examples }
{}
