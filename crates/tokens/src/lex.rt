ghost use Rattle.std.specs.Prelude.{◌≡◌, map, MatchResult};
ghost use Rattle.tokens.specs.Meanings.{placed};
ghost use Rattle.tokens.specs.Lexer.{Lexed, lexed, read};
ghost use Rattle.tokens.specs.Reading.{Law};
ghost use Rattle.tokens.specs.Answers.{Refused};

use super::bytes::is_blank;
use super::first::token_at;
use super::token::Token;
use refusals::numbers::LONGEST;
use refusals::refusal::Refusal;
use std::alloc::Global;

// The tokens of a text, in order.
pub fn lex<'a>(heap: Global, text: &'a [u8]) -> Result<Vec<Token<'a>>, Refusal>
    ensures answer { MatchResult result (λ v. lexed text.now ≡ read (map placed v.items)) (Refused text.now) }
    ensures law { Law text.now (lexed text.now) }
    ensures only { (l : Lexed) → Law text.now l → lexed text.now ≡ l }
{
    if text.len() > LONGEST {
        return Err(Refusal::TooLong);
    }
    let mut tokens = Vec::new(heap);
    let mut place = 0;
    // The place is what a token holds, and a step is as long as a token, so no iterator counts it.
    while place < text.len() {
        if is_blank(text[place]) {
            place += 1;
        } else {
            let found = token_at(&text[place..]).ok_or(Refusal::NoToken(place))?;
            tokens.push(Token {
                place,
                kind: found.kind,
            })?;
            place += found.len;
        }
    }
    Ok(tokens)
}
