#![tactic(auto)]
// Examples of what networks and worklists do, through their public interface. The expected numbers are worked out by hand; in
// the comments that say how, f2 is flow 2 and v2 is variable 2.
#[cfg(test)]
mod bound_tests;
#[cfg(test)]
mod cut_tests;
#[cfg(test)]
mod cycle_tests;
#[cfg(test)]
mod explain_tests;
#[cfg(test)]
mod limit_tests;
#[cfg(test)]
mod only_tests;
#[cfg(test)]
mod rise_tests;
#[cfg(test)]
mod script_tests;
#[cfg(test)]
mod start_tests;
#[cfg(test)]
mod trial;
