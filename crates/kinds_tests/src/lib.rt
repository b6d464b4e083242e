#![tactic(auto)]
// Examples of what the kinds do, through their public interface, and a kind from outside: `Only`, the smallest lawful one.
#[cfg(test)]
mod bytes_tests;
#[cfg(test)]
mod find_tests;
pub mod only;
#[cfg(test)]
mod only_tests;
#[cfg(test)]
mod origin_tests;
#[cfg(test)]
mod pair_tests;
#[cfg(test)]
mod sources_tests;
#[cfg(test)]
mod spellings_tests;
#[cfg(test)]
mod values;
