#![tactic(auto)]
// Flows between variables, and bounds on them, over any kind. A network holds both; a worklist finds the least values that meet
// the flows, and explains which rises lead to a broken bound. Proved for every kind that keeps its laws: the values are the
// least, a bound is broken just where nothing meets flows and bounds together, and the evaluations are bounded.
mod bounds;
mod building;
mod cutting;
pub mod explain;
pub mod flow;
mod linking;
pub mod network;
mod queue;
mod queueing;
mod readers;
mod reading;
mod run;
mod running;
mod settle;
mod slot;
pub mod worklist;
