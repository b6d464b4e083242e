#![tactic(auto)]
// Reads a script from standard input, one declaration a line, and shows for each its tokens with their places, or the number
// and the place of its refusal.
use anyhow::anyhow;
use std::io::Read;
use std::{env, io};
use tokens::lex::lex;
use tokens::token::{Mark, Token, TokenKind};

// Bytes of a token, which are all of ASCII. That is a promise of the lexer and not of their type, so no `Display` prints them.
fn show_bytes(rt: &impl Print, bytes: &[u8]) -> io::Result<()> {
    match std::str::from_utf8(bytes) {
        Ok(text) => print!(rt; "{text}"),
        Err(_) => print!(rt; "?"),
    }
}

fn show_mark(rt: &impl Print, mark: Mark<'_>) -> io::Result<()> {
    match mark {
        Mark::Binder(groups) => {
            print!(rt; "(*$")?;
            show_bytes(rt, groups)?;
        }
        Mark::Bound(name) => {
            print!(rt; "(*!")?;
            show_bytes(rt, name)?;
        }
    }
    print!(rt; "*)")
}

fn show_kind(rt: &impl Print, kind: TokenKind<'_>) -> io::Result<()> {
    match kind {
        TokenKind::Word(word) => print!(rt; "{word}"),
        TokenKind::Symbol(symbol) => print!(rt; "{symbol}"),
        TokenKind::Literal(digits) => show_bytes(rt, digits),
        TokenKind::Identifier(name) => show_bytes(rt, name),
        TokenKind::Mark(mark) => show_mark(rt, mark),
    }
}

fn show_tokens(rt: &impl Print, tokens: &[Token<'_>]) -> io::Result<()> {
    print!(rt; "read")?;
    for token in tokens {
        let place = token.place;
        print!(rt; " {place}:")?;
        show_kind(rt, token.kind)?;
    }
    println!(rt; "")
}

fn show_line(rt: &HostRuntime, line: &[u8]) -> io::Result<()> {
    match lex(rt.alloc(), line) {
        Ok(tokens) => show_tokens(rt, tokens.as_slice()),
        Err(refusal) => println!(rt; "{refusal}"),
    }
}

// The lines of a script; one that ends with a line feed has no further line behind it. `grammar_vectors` has the same few lines:
// a library for them alone is no plainer.
fn show_script(rt: &HostRuntime, script: &[u8]) -> io::Result<()> {
    if script.is_empty() {
        return Ok(());
    }
    let lines = script.strip_suffix(b"\n").unwrap_or(script);
    for line in lines.split(|b| *b == b'\n') {
        show_line(rt, line)?;
    }
    Ok(())
}

fn help(rt: &impl Print) -> io::Result<()> {
    println!(rt; "lanecheck reads a script from standard input, one declaration a line.")?;
    println!(rt; "For each line it writes the tokens with their places, as `read 0:val 4:x`,")?;
    println!(rt; "or the refusal with its number and what is returned, as `refused 2 8`.")
}

fn run(rt: &HostRuntime) -> anyhow::Result<()> {
    match env::args(rt)?.nth(1) {
        None => {
            let mut script = Vec::new(rt.alloc());
            rt.stdin().read_to_end(&mut script)?;
            show_script(rt, script.as_slice())?;
        }
        Some(word) => {
            if word.as_str() != "help" {
                return Err(anyhow!("the only argument is `help`"));
            }
            help(rt)?;
        }
    }
    Ok(())
}

fn main(rt: HostRuntime) -> anyhow::Result<()> {
    run(&rt)
}
