//! The rings of a slice, and the loops that bound a plane's filled cells.
#![tactic(auto)]

mod around;
mod laws;
mod loop_search;
mod loop_trace;
mod nested;
mod numbers;
mod side;
#[cfg(test)]
mod tests;

pub use laws::boundary_edges_go_round;
pub use loop_search::loops;
pub use nested::{RingSet, rings};
