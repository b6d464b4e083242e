#![tactic(auto)]
// What a declaration makes: appended to the network as far as it fits, and counted past every limit.
pub mod adding;
pub mod calling;
pub mod making;
pub mod output;
pub mod parts;
pub mod returning;
pub mod settling;
pub mod start;
mod widths;
