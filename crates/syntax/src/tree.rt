// A name, the digits of a literal, or what stands in a mark; and where it begins, with a mark at its `(`.
#[derive(Clone, Copy, Debug)]
pub struct Lexeme<'a> {
    pub place: usize,
    pub bytes: &'a [u8],
}

#[derive(Clone, Copy, Debug, PartialEq)]
pub enum Operator {
    Plus,
    Minus,
    Times,
    Div,
    Mod,
}

// A number is the place of the first token, in `Arith` that of the operator.
#[derive(Debug, Drop)]
#[cycle(exp)]
pub enum Exp<'a> {
    Literal(Lexeme<'a>),
    Variable(Lexeme<'a>),
    Group(usize, Box<Exp<'a>>),
    // `(p := e; f)`
    Assign(usize, Box<Exp<'a>>, Box<Exp<'a>>, Box<Exp<'a>>),
    Let(usize, Box<Vals<'a>>, Box<Exp<'a>>),
    // an atom with one more bound mark
    Bounded(Box<Exp<'a>>, Lexeme<'a>),
    Ref(usize, Box<Exp<'a>>),
    Read(usize, Box<Exp<'a>>),
    Call(Lexeme<'a>, Box<Args<'a>>),
    Arith(Box<Exp<'a>>, usize, Operator, Box<Exp<'a>>),
    // `if a < b then c else d`
    If(usize, Box<Exp<'a>>, Box<Exp<'a>>, Box<Exp<'a>>, Box<Exp<'a>>),
}

// The arguments of a call, one or more. This list and the two below are types of their own and no `Vec`, since that there is one at
// least is then in the type, as it is in the definitions of trees.
#[derive(Debug, Drop)]
#[cycle(exp)]
pub enum Args<'a> {
    Last(Box<Exp<'a>>),
    More(Box<Exp<'a>>, Box<Args<'a>>),
}

// The `val` declarations of a `let`, one or more: name, mark, expression.
#[derive(Debug, Drop)]
#[cycle(exp)]
pub enum Vals<'a> {
    Final(Lexeme<'a>, Option<Lexeme<'a>>, Box<Exp<'a>>),
    Then(Lexeme<'a>, Option<Lexeme<'a>>, Box<Exp<'a>>, Box<Vals<'a>>),
}

// `int` with `depth` times `ref` after it. The last of these words begins at `last`; it ends three bytes on, whichever it is.
#[derive(Clone, Copy, Debug, PartialEq)]
pub struct Ty {
    pub depth: u8,
    pub last: usize,
}

#[derive(Clone, Copy, Debug)]
pub struct Param<'a> {
    pub name: Lexeme<'a>,
    pub mark: Option<Lexeme<'a>>,
    pub ty: Ty,
}

// The parameters of a function, one or more.
#[derive(Debug, Drop)]
pub enum Params<'a> {
    Sole(Param<'a>),
    And(Param<'a>, Box<Params<'a>>),
}

#[derive(Debug, Drop)]
pub enum Dec<'a> {
    Val(Lexeme<'a>, Option<Lexeme<'a>>, Exp<'a>),
    // name, parameters, type of the result and its mark, body
    Fun(Lexeme<'a>, Params<'a>, Ty, Option<Lexeme<'a>>, Exp<'a>),
}
