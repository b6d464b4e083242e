#![tactic(auto)]
// From the tokens of a declaration to its tree, or to the first token that does not fit.
mod declaration;
mod expression;
pub mod read;
