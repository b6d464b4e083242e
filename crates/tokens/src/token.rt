// The reserved words.
#[derive(Clone, Copy, Debug, PartialEq, Eq)]
pub enum Word {
    Val,
    Fun,
    Let,
    In,
    End,
    If,
    Then,
    Else,
    Ref,
    Int,
    Div,
    Mod,
}

#[derive(Clone, Copy, Debug, PartialEq, Eq)]
pub enum Symbol {
    Bang,
    Plus,
    Minus,
    Star,
    Less,
    Colon,
    Equals,
    Assign,
    Open,
    Close,
    Comma,
    Semicolon,
}

// What stands between `(*$` or `(*!` and `*)`.
#[derive(Clone, Copy, Debug, PartialEq, Eq)]
pub enum Mark<'a> {
    Binder(&'a [u8]),
    Bound(&'a [u8]),
}

// What a token is. Digits, names and marks are parts of the text.
#[derive(Clone, Copy, Debug, PartialEq, Eq)]
pub enum TokenKind<'a> {
    Word(Word),
    Symbol(Symbol),
    Literal(&'a [u8]),
    Identifier(&'a [u8]),
    Mark(Mark<'a>),
}

// The place counts bytes from the start of the text.
#[derive(Clone, Copy, Debug, PartialEq, Eq)]
pub struct Token<'a> {
    pub place: usize,
    pub kind: TokenKind<'a>,
}
