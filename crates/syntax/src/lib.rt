#![tactic(auto)]
// The tree of a declaration, and the grammar: which tokens a tree stands for, and within how many levels of nesting.
pub mod start;
pub mod tree;
