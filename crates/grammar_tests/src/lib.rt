#![tactic(auto)]
// Examples of texts that are declarations, with their trees, and of texts that are refused by the grammar.
#[cfg(test)]
mod answers;
#[cfg(test)]
mod longest_tests;
#[cfg(test)]
mod nesting_tests;
#[cfg(test)]
mod productions_tests;
#[cfg(test)]
mod trees_tests;
