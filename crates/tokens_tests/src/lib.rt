#![tactic(auto)]
// Examples of how texts are read as tokens, of the parts of a mark, and of the numbers and values of refusals.
#[cfg(test)]
mod bytes_tests;
#[cfg(test)]
mod declarations_tests;
#[cfg(test)]
mod length_tests;
#[cfg(test)]
mod marks_tests;
#[cfg(test)]
mod parts_tests;
#[cfg(test)]
mod refusals_tests;
#[cfg(test)]
mod shown;
#[cfg(test)]
mod symbols_tests;
#[cfg(test)]
mod words_tests;
