// The answer of `lex` as one line of text.
use std::alloc::Global;
use std::process::Abort;
use std::str::from_utf8;
use std::test::Fail;
use tokens::lex::lex;
use tokens::token::{Mark, Token, TokenKind};

// A text, and the line that shows how it is read.
pub type Case<'a> = (&'a [u8], &'a str);

fn show_kind(heap: Global, kind: TokenKind) -> Result<String, Fail> {
    let text = match kind {
        TokenKind::Word(word) => format!(in heap; "{word:?}")?,
        TokenKind::Symbol(symbol) => symbol.to_string(heap)?,
        TokenKind::Literal(digits) => String::from_str(heap, from_utf8(digits)?)?,
        TokenKind::Identifier(name) => String::from_str(heap, from_utf8(name)?)?,
        TokenKind::Mark(Mark::Binder(groups)) => format!(in heap; "(*${}*)", from_utf8(groups)?)?,
        TokenKind::Mark(Mark::Bound(name)) => format!(in heap; "(*!{}*)", from_utf8(name)?)?,
    };
    Ok(text)
}

fn show_tokens(heap: Global, tokens: &[Token]) -> Result<String, Fail> {
    let mut line = String::new(heap);
    for token in tokens {
        if !line.is_empty() {
            line.push(' ')?;
        }
        let place = token.place;
        let kind = show_kind(heap, token.kind)?;
        write!(line, "{place}:{kind}")?;
    }
    Ok(line)
}

// Each token as its place and its spelling, a reserved word with a capital: `0:Val 4:x 6:= 8:7`. A refusal as it is
// printed, with its number and value: `refused 2 8`.
pub fn shown(heap: Global, text: &[u8]) -> Result<String, Fail> {
    match lex(heap, text) {
        Ok(tokens) => show_tokens(heap, &tokens),
        Err(refusal) => Ok(refusal.to_string(heap)?),
    }
}

pub fn check_cases(rt: &impl Abort, heap: Global, cases: &[Case]) -> Result<(), Fail> {
    for (text, line) in cases {
        let found = shown(heap, text)?;
        assert_eq!(rt; found.as_str(), *line, "text {}", text.escape_ascii());
    }
    Ok(())
}
