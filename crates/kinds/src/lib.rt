#![tactic(auto)]
// What a qualifier is. A kind is a finite set of values with an order, names and operators behind one trait; its laws are
// stated once, and each kind here is proved to keep them: `Origin`, `Sources`, and the pair of any two plain kinds.
// Names are found by one function, for a kind and for a copy of its spellings alike.
pub mod bytes;
pub mod find;
pub mod kind;
pub mod operators;
pub mod origin;
pub mod pair;
pub mod sources;
pub mod spellings;
