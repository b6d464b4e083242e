ghost use Rattle.std.specs.Prelude.{◌≡◌, Some};
ghost use Rattle.tokens.specs.Tokens.{spelling, sign};

use super::token::{Symbol, Word};
use std::fmt;

impl Word {
    // How it is written.
    pub fn text(self) -> &'static str
        ensures { result.now ≡ spelling self }
    {
        match self {
            Word::Val => "val",
            Word::Fun => "fun",
            Word::Let => "let",
            Word::In => "in",
            Word::End => "end",
            Word::If => "if",
            Word::Then => "then",
            Word::Else => "else",
            Word::Ref => "ref",
            Word::Int => "int",
            Word::Div => "div",
            Word::Mod => "mod",
        }
    }
}

impl Symbol {
    // How it is written.
    pub fn text(self) -> &'static str
        ensures { result.now ≡ sign self }
    {
        match self {
            Symbol::Bang => "!",
            Symbol::Plus => "+",
            Symbol::Minus => "-",
            Symbol::Star => "*",
            Symbol::Less => "<",
            Symbol::Colon => ":",
            Symbol::Equals => "=",
            Symbol::Assign => ":=",
            Symbol::Open => "(",
            Symbol::Close => ")",
            Symbol::Comma => ",",
            Symbol::Semicolon => ";",
        }
    }
}

impl fmt::Display for Word {
    ghost output = { λ w. Some (spelling w) };

    fn fmt<W: fmt::Write>(&self, f: &mut fmt::Formatter<W>) -> fmt::Result {
        f.write_str(self.text())
    }
}

impl fmt::Display for Symbol {
    ghost output = { λ y. Some (sign y) };

    fn fmt<W: fmt::Write>(&self, f: &mut fmt::Formatter<W>) -> fmt::Result {
        write!(f, "{}", self.text())
    }
}
