#![tactic(auto)]
// The parts of the parser that do not nest: looking at the next token, taking it, making trees, closing brackets, and the head
// of a declaration. Each says what it reads by the grammar and what it leaves of the goals (crate `goals`).
pub mod closing;
pub mod fault;
pub mod front;
pub mod header;
pub mod looking;
pub mod making;
