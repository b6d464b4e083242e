#![tactic(auto)]
// The tokens of a declaration, with their places. Any bytes are either read as tokens or refused with the place of the first
// bytes that are no token; a law says which, and that nothing else is a right answer. How a part of a text reads does not
// depend on the rest, and the parts of a mark are there in order.
mod bytes;
mod first;
pub mod laws;
pub mod lex;
pub mod marks;
mod spelling;
pub mod token;
