// The tree of a declaration from its tokens, and from its text.
ghost use Rattle.std.specs.Prelude.{◌≡◌, length, MatchResult};
ghost use Rattle.syntax.specs.Meanings.{declaration_of};
ghost use Rattle.pieces.specs.Seen.{seen};
ghost use Rattle.grammar.specs.Readings.{Reading, declaration, Parses, ParseRefused, ReadsTo, ReadRefused};

use super::declaration::dec;
use pieces::front::Reader;
use refusals::refusal::Refusal;
use std::alloc::Global;
use syntax::tree::Dec;
use tokens::lex::lex;
use tokens::token::Token;

// The tree of all the tokens of a text with `end` bytes.
pub fn parse<'a>(heap: Global, ts: &[Token<'a>], end: usize) -> Result<Dec<'a>, Refusal>
    ensures answer { MatchResult result (λ d. Parses end (seen ts.entry) (declaration (declaration_of d))) (ParseRefused end (seen ts.entry)) }
    ensures some { (x : Reading) × Parses end (seen ts.entry) x }
    ensures only { (x y : Reading) → Parses end (seen ts.entry) x → Parses end (seen ts.entry) y → x ≡ y }
{
    let mut reader = Reader {
        rest: ts,
        end,
        heap,
    };
    let d = dec(&mut reader)?;
    match reader.rest.first() {
        None => Ok(d),
        Some(token) => Err(Refusal::Misplaced(token.place)),
    }
}

// The tree of a text, whatever its bytes are.
pub fn read<'a>(heap: Global, text: &'a [u8]) -> Result<Dec<'a>, Refusal>
    ensures answer { MatchResult result (λ d. ReadsTo text.now (declaration (declaration_of d))) (ReadRefused text.now) }
    ensures some { (x : Reading) × ReadsTo text.now x }
    ensures only { (x y : Reading) → ReadsTo text.now x → ReadsTo text.now y → x ≡ y }
{
    let tokens = lex(heap, text)?;
    parse(heap, tokens.as_slice(), text.len())
}
