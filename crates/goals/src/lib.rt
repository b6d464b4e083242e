#![tactic(auto)]
// What the tokens of a declaration come to, as definitions and theorems: a tree, or the place where they do not go on.
pub mod laws;
