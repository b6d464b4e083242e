#![tactic(auto)]
// The rules by which a declaration gets its variables, flows, bounds and binders, and the laws that they keep.
pub mod laws;
