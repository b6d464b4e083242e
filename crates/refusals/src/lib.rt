#![tactic(auto)]
// Every cause of a refusal, once: its number, the values that are returned with it, and how it is printed. A refusal changes nothing.
pub mod numbers;
mod printing;
pub mod refusal;
