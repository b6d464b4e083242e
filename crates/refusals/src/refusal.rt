// What a project holds at most of; passing a limit is a refusal.
#[derive(Clone, Copy, Debug, PartialEq, Eq)]
pub enum Limit {
    Variables,
    Flows,
    Bounds,
    Binders,
    Text,
}

// Why a call is refused. Places count bytes of the given text from 0.
#[derive(Clone, Copy, Debug, PartialEq, Eq)]
pub enum Refusal {
    // the text is longer than a declaration may be
    TooLong,
    // bytes that are no token, from this place on
    NoToken(usize),
    // the first token, or the text's end, with which no declaration goes on
    Misplaced(usize),
    // a token that opens one level of nesting too many
    TooDeep(usize),
    // a name or a mark's name that is not in force, a function as a value, a value that is called, a parameter named twice
    NotInForce(usize),
    // a wrong depth, number of arguments or number of groups
    Unfit(usize),
    // a limit is passed
    Passed(Limit),
    // the lowest bound that is broken, and the evaluations of the run
    Broken(usize, usize),
    // a level above the depth, which is told
    NoLevel(usize),
    // a buffer or list is too short: the length that is needed
    TooShort(usize),
    // an explanation was asked for, and no bound is broken
    NoneBroken,
    // want of memory
    Memory,
}
